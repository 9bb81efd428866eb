//! Whether a round has too many starts.

ghost use Rattle.std.specs.Prelude.{◌≡◌, ◌≢◌, ◌<◌, ◌≤◌, ◌^◌, None, Some, OnOk, IfErr, IfOk, ℕ, All, length, map};
ghost use Rattle.capture.specs.Faults.{IsInRounds, crowd_fault, starts_in, OutOfMemory};
ghost use Rattle.capture.specs.Loads.{IsRow};
ghost use Rattle.capture.specs.Rounds.{Span};

use crate::capture_fault::{CaptureFault, MAX_IN_ROUND};
use crate::tally::tally;
use recording_file::Request;
use std::alloc::{AllocError, Global};

/// The first round in which more requests were started than a cap can say, if there is one.
pub fn check_crowds(alloc: Global, last: u32, requests: &[Request]) -> Result<(), CaptureFault>
    requires within { All (IsInRounds last) requests.now }
    requires few { length requests.now < 2 ^ 32 }
    ensures ok { OnOk result ((unit : Span) → crowd_fault (record { unit = unit; rounds = last; requests = requests.now }) ≡ None) }
    ensures crowds { OnOk result ((round : ℕ) → 1 ≤ round → round ≤ last → starts_in requests.now round ≤ MAX_IN_ROUND) }
    ensures err { IfErr result (λ e. e ≢ OutOfMemory → (unit : Span) → crowd_fault (record { unit = unit; rounds = last; requests = requests.now }) ≡ Some e) }
{
    let row = starts_row(alloc, last, requests)?;
    for before in 0..last {
        let round = before + 1;
        let starts = row[round as usize];
        if starts > MAX_IN_ROUND {
            return Err(CaptureFault::TooManyInRound(round, starts));
        }
    }
    Ok(())
}

// How many requests were started in each round.
fn starts_row(alloc: Global, last: u32, requests: &[Request]) -> Result<Vec<u32>, AllocError>
    requires within { All (IsInRounds last) requests.now }
    requires few { length requests.now < 2 ^ 32 }
    ensures { IfOk result (λ row. IsRow (starts_in requests.now) last row.items) }
{
    let rounds = starts(alloc, requests)?;
    tally(alloc, last, &rounds)
}

// The rounds in which requests were started.
fn starts(alloc: Global, requests: &[Request]) -> Result<Vec<u32>, AllocError>
    ensures { IfOk result (λ rounds. rounds.items ≡ map (λ q. q.sent) requests.now) }
{
    requests.iter().map(|request| request.sent).collect(alloc)
}
