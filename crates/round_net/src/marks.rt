//! What is noted at a place of a history, of the place's round.

ghost use Rattle.std.specs.Prelude.{◌≡◌, ◌<◌, ◌≤◌, ◌*◌, ◌||◌, not, ◌==◌, false, length, slice_set, slice_index_or};
ghost use Rattle.round_net.specs.Words.{MAX_ROUNDS, round};
ghost use Rattle.round_net.specs.Caps.{resource_count, resource_freezes, resource_openings, sends_in};
ghost use Rattle.round_net.specs.Marks.{Marks, Sets};

use crate::flat::cell;
use crate::resource_state::{is_frozen, openings, resource_count, sent};
use xpt_core::Queues;

/// Marks each row that is frozen at the place.
pub fn mark_frozen(replay: &Queues, rounds: u32, marks: &mut [bool])
    requires few { rounds ≤ MAX_ROUNDS }
    requires within { round replay.now.events ≤ rounds }
    requires cells { resource_count replay.now.config * rounds ≤ length marks.old }
    ensures { Marks (resource_count replay.now.config) rounds marks.old marks.new (round replay.now.events) (λ row. not (resource_freezes replay.now.config replay.now.events row == 0)) }
{
    let devices = replay.devices();
    for row in 0..resource_count(devices.config()) {
        let at = cell(rounds, row, devices.round());
        mark(marks, at, is_frozen(replay, row));
    }
}

fn mark(marks: &mut [bool], at: usize, is_frozen: bool)
    requires { at < length marks.old }
    ensures { marks.new ≡ slice_set marks.old at (slice_index_or marks.old at false || is_frozen) }
{
    marks[at] |= is_frozen;
}

/// Notes the openings of each row.
pub fn note_openings(replay: &Queues, rounds: u32, numbers: &mut [u32])
    requires few { rounds ≤ MAX_ROUNDS }
    requires within { round replay.now.events ≤ rounds }
    requires cells { resource_count replay.now.config * rounds ≤ length numbers.old }
    ensures { Sets (resource_count replay.now.config) rounds numbers.old numbers.new (round replay.now.events) (resource_openings replay.now.config replay.now.events) }
{
    let devices = replay.devices();
    for row in 0..resource_count(devices.config()) {
        let at = cell(rounds, row, devices.round());
        numbers[at] = openings(replay, row);
    }
}

/// Notes how many sends used an opening of each row.
pub fn note_sends(replay: &Queues, rounds: u32, numbers: &mut [u32])
    requires few { rounds ≤ MAX_ROUNDS }
    requires within { round replay.now.events ≤ rounds }
    requires cells { resource_count replay.now.config * rounds ≤ length numbers.old }
    ensures { Sets (resource_count replay.now.config) rounds numbers.old numbers.new (round replay.now.events) (λ row. sends_in replay.now.config replay.now.events row (round replay.now.events)) }
{
    let devices = replay.devices();
    for row in 0..resource_count(devices.config()) {
        let at = cell(rounds, row, devices.round());
        numbers[at] = sent(replay, row);
    }
}
