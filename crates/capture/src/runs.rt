//! The runs of rounds in which a part takes one number of requests.

ghost use Rattle.std.specs.Prelude.{◌≡◌, ℕ, ◌+◌, ◌<◌, ◌≤◌, ◌++◌, All, OnOk, true, [], length, slice_index};
ghost use Rattle.recording_file.specs.Caps.{part_count, is_part_before};
ghost use Rattle.recording_file.specs.Counts.{counts_of};
ghost use Rattle.recording_file.specs.Runs.{begins_run, run_last};
ghost use Rattle.recording_file.specs.declared.limits.TheConstants.{MAX_RECORDED_ROUNDS};
ghost use Rattle.capture.specs.Captured.{run_cap, run_caps};
ghost use Rattle.capture.specs.declared.capture_fault.TheConstants.{MAX_IN_ROUND};

use recording_file::{Cap, Part, Recorder};
use std::alloc::AllocError;

/// Adds the caps of a part, by its number in each round, after those of earlier parts. It fails only if there is no memory.
pub fn add_runs(
    recorder: &mut Recorder,
    part: Part,
    row: &[u32],
    usual: u32,
) -> Result<(), AllocError>
    requires there { part.number < part_count (counts_of recorder.old.config) part.kind }
    requires size { length row.now ≡ recorder.old.rounds + 1 }
    requires most { (round : ℕ) → 1 ≤ round → round ≤ recorder.old.rounds → slice_index row.now round ≤ MAX_IN_ROUND }
    requires before { All (λ cap. is_part_before cap.part part ≡ true) recorder.old.caps }
    requires none { recorder.old.requests ≡ [] }
    ensures { OnOk result (recorder.new ≡ record recorder.old { caps = recorder.old.caps ++ run_caps part (slice_index row.now) usual recorder.old.rounds }) }
{
    let rounds = recorder.rounds();
    for before in 0..rounds {
        let first = before + 1;
        if begins_run(row, usual, first) {
            recorder.add_cap(run_cap(part, row, rounds, first))?;
        }
    }
    Ok(())
}

// Whether a run begins in the round: its number isn't the usual one, nor that of the round before.
#[tactic(auto, unfolding(recording_file::specs::Runs::begins_run))]
fn begins_run(row: &[u32], usual: u32, at: u32) -> bool
    requires first { 1 ≤ at }
    requires last { at < length row.now }
    ensures { result ≡ begins_run (slice_index row.now) usual at }
{
    let number = row[at as usize];
    number != usual && (at == 1 || row[at as usize - 1] != number)
}

// The last round of the run that begins in this one.
fn run_last(row: &[u32], rounds: u32, first: u32) -> u32
    requires last { first ≤ rounds }
    requires size { length row.now ≡ rounds + 1 }
    ensures { result ≡ run_last (slice_index row.now) rounds first }
{
    let number = row[first as usize];
    for more in 0..rounds - first {
        if row[(first + 1 + more) as usize] != number {
            return first + more;
        }
    }
    rounds
}

// The cap of a part in the run of rounds that begins in this one.
#[tactic(auto, unfolding(crate::specs::Captured::run_cap))]
fn run_cap(part: Part, row: &[u32], rounds: u32, first: u32) -> Cap
    requires last { first ≤ rounds }
    requires size { length row.now ≡ rounds + 1 }
    requires most { slice_index row.now first ≤ MAX_IN_ROUND }
    ensures same { result ≡ run_cap part (slice_index row.now) rounds first }
    ensures most { result.most ≤ MAX_IN_ROUND }
{
    Cap {
        part,
        first,
        last: run_last(row, rounds, first),
        most: row[first as usize],
    }
}
