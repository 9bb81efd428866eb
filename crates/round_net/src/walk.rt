//! One pass over the places of a history.

ghost use Rattle.std.specs.Prelude.{◌≡◌, ℕ, ◌≤◌, not, ◌==◌, true, false, [], slice_index, slice_index_or, IsTrue, IfOk};
ghost use Rattle.round_net.specs.Words.{MAX_ROUNDS, history_rules, is_legal, round};
ghost use Rattle.round_net.specs.Ends.{AreEnds};
ghost use Rattle.round_net.specs.Caps.{resource_count, resource_freezes, resource_openings, sends_in};
ghost use Rattle.round_net.specs.Marks.{Marks, Sets, IsNoted, HasCells};

use crate::marks::{mark_frozen, note_openings, note_sends};
use crate::round_ends::RoundEnds;
use event_rules::Event;
use std::alloc::AllocError;
use xpt_core::Queues;

/// Lets the events happen again, and notes at each place what is asked of its round, and at each end of a round what held.
/// The rows have to be blank.
pub fn walk(
    mut replay: Queues,
    events: &[Event],
    rounds: u32,
    frozen: &mut [bool],
    openings: &mut [u32],
    sends: &mut [u32],
    ends: &mut RoundEnds,
) -> Result<Queues, AllocError>
    requires few { rounds ≤ MAX_ROUNDS }
    requires within { round events.now ≤ rounds }
    requires start { replay.events ≡ [] }
    requires rules { replay.rules ≡ history_rules }
    requires legal { IsTrue (is_legal history_rules replay.config events.now) }
    requires cells { HasCells replay.config rounds frozen.old openings.old sends.old }
    requires no_mark { (i : ℕ) → slice_index_or frozen.old i false ≡ false }
    requires no_opening { (i : ℕ) → slice_index openings.old i ≡ 0 }
    requires no_send { (i : ℕ) → slice_index sends.old i ≡ 0 }
    requires no_end { AreEnds replay.config [] ends.old }
    ensures replayed { IfOk result (λ end. end ≡ record { config = replay.config; rules = history_rules; events = events.now }) }
    ensures noted { IfOk result (λ _. IsNoted replay.config events.now rounds frozen.new openings.new sends.new) }
    ensures ended { IfOk result (λ _. AreEnds replay.config events.now ends.new) }
{
    note(&replay, rounds, true, frozen, openings, sends);
    for event in events {
        ends.push(&replay, event)?;
        replay.append(*event);
        note(&replay, rounds, event.is_tick(), frozen, openings, sends);
    }
    Ok(replay)
}

// Notes what there is to note at the place, which may open a round.
fn note(
    replay: &Queues,
    rounds: u32,
    opens: bool,
    frozen: &mut [bool],
    openings: &mut [u32],
    sends: &mut [u32],
)
    requires few { rounds ≤ MAX_ROUNDS }
    requires within { round replay.now.events ≤ rounds }
    requires cells { HasCells replay.now.config rounds frozen.old openings.old sends.old }
    ensures marked { Marks (resource_count replay.now.config) rounds frozen.old frozen.new (round replay.now.events) (λ row. not (resource_freezes replay.now.config replay.now.events row == 0)) }
    ensures opened { opens ≡ true → Sets (resource_count replay.now.config) rounds openings.old openings.new (round replay.now.events) (resource_openings replay.now.config replay.now.events) }
    ensures kept { opens ≡ false → openings.new ≡ openings.old }
    ensures sent { Sets (resource_count replay.now.config) rounds sends.old sends.new (round replay.now.events) (λ row. sends_in replay.now.config replay.now.events row (round replay.now.events)) }
{
    if opens {
        note_openings(replay, rounds, openings);
    }
    mark_frozen(replay, rounds, frozen);
    note_sends(replay, rounds, sends);
}
