//! The spans in which levels have gaps.

ghost use Rattle.std.specs.Prelude.{◌≡◌, ◌+◌, ◌-◌, ◌*◌, ◌<◌, ◌≤◌, ◌^◌, ◌++◌, ◌&&◌, ℕ, nat_le, nat_lt, if◌then◌else◌, List, IfOk, length, slice_index};
ghost use Rattle.std.specs.List.{flat_map, range_with_len};
ghost use Rattle.slots.specs.Changes.{AreInRounds, AreLevels, IsOver, IsReady, changes_in, level_at, spare_by};
ghost use Rattle.slots.specs.Gaps.{round_at, spare_within};
ghost use Rattle.slots.specs.Tallies.{Clock, IsTally};

use crate::bounds::Passed;
use crate::changes::{Changes, change_at};
use crate::tally::{Clock, Tally};
use std::alloc::{AllocError, Global};

/// The tally of the spare starts of all levels. It fails only if there is no memory.
pub fn tally_of(
    alloc: Global,
    clock: Clock,
    changes: &Changes,
    slots: u32,
    rounds: u32,
) -> Result<Tally, AllocError>
    requires service { 1 ≤ clock.service }
    requires span { 1 ≤ clock.span }
    requires ready { IsReady changes.now }
    requires levels { AreLevels slots (changes_in changes.now slots) }
    requires rounds { AreInRounds (level_at (changes_in changes.now slots) slots) slots clock rounds }
    ensures size { IfOk result (λ tally. length tally.row.items ≡ rounds + 1) }
    ensures tally { IfOk result (λ tally. (last : ℕ) → IsOver (level_at (changes_in changes.now slots) slots) slots last → IsTally clock (spare_by (level_at (changes_in changes.now slots) slots) slots clock.service last) tally.row.items tally.total) }
{
    let none = slots as usize + 1;
    let mut tally = Tally::none(alloc, rounds)?;
    let mut begun = vec![in alloc; 0; none]?;
    let mut lowest = none;
    let mut flying = Passed::none();
    let mut waiting = Passed::none();
    for at in &changes.times {
        flying = changes.held.up_to_from(flying, *at);
        waiting = changes.waited.up_to_from(waiting, *at);
        let change = change_at(*at, flying, waiting, slots);
        end_levels(&mut tally, clock, &begun, lowest, change.lowest, change.at);
        begin_levels(&mut begun, change.lowest, lowest, change.at);
        lowest = change.lowest;
    }
    Ok(tally)
}

// Adds the spare starts of the levels from one up to before another, whose spans end.
fn end_levels(tally: &mut Tally, clock: Clock, begun: &[u64], from: usize, to: usize, at: u64)
    requires service { 1 ≤ clock.service }
    requires span { 1 ≤ clock.span }
    requires there { to ≤ length begun.now }
    requires begin { (k : ℕ) → from ≤ k → k < to → clock.begin ≤ slice_index begun.now k }
    requires order { (k : ℕ) → from ≤ k → k < to → slice_index begun.now k ≤ at }
    requires round { (k : ℕ) → from ≤ k → k < to → round_at clock.span clock.begin at < length tally.old.row.items }
    requires total { tally.old.total + (to - from) * 2 ^ 64 ≤ 2 ^ 128 }
    ensures size { length tally.new.row.items ≡ length tally.old.row.items }
    ensures tally { (times : List ℕ) → IsTally clock times tally.old.row.items tally.old.total → IsTally clock (times ++ flat_map (λ k. spare_within clock.service (slice_index begun.now k) at) (range_with_len from (to - from))) tally.new.row.items tally.new.total }
{
    for level in from..to {
        tally.add_span(clock, begun[level], at);
    }
}

// Spans of the levels from one up to before another begin.
fn begin_levels(begun: &mut [u64], from: usize, to: usize, at: u64)
    requires there { to ≤ length begun.old }
    ensures size { length begun.new ≡ length begun.old }
    ensures each { (k : ℕ) → slice_index begun.new k ≡ (if nat_le from k && nat_lt k to then at else slice_index begun.old k) }
{
    for level in from..to {
        begun[level] = at;
    }
}
