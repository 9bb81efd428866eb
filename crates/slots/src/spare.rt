//! The starts that had room while requests waited.

ghost use Rattle.std.specs.Prelude.{◌≡◌, ◌+◌, ◌<◌, ◌≤◌, ◌^◌, ℕ, All, IfOk, length, min, slice_index};
ghost use Rattle.slots.specs.Gaps.{Wait, in_round, round_at, spare_starts};
ghost use Rattle.slots.specs.Tallies.{MOST_SPARE};

use crate::changes::changes_of;
use crate::flight::{Flight, Wait};
use crate::found::Slots;
use crate::levels::tally_of;
use crate::tally::Clock;
use std::alloc::{AllocError, Global};

/// Spare starts.
#[derive(Drop)]
pub struct Spare {
    /// How many there are in each round, from round 1 on, and 0 for round 0; at most [`MOST_SPARE`](crate::MOST_SPARE) of each.
    pub row: Vec<u32>,
    /// How many there are in all.
    pub total: u128,
}

/// The spare starts of a device with these slots in rounds 1 to `rounds`, of which the first begins at `begin` and each is `span`
/// nanoseconds long. Each wait arrives at or after `begin`, and is started in one of these rounds. It fails only if there is no memory.
pub fn spare_starts(
    alloc: Global,
    flights: &[Flight],
    waits: &[Wait],
    slots: &Slots,
    begin: u64,
    span: u64,
    rounds: u32,
) -> Result<Spare, AllocError>
    requires few { length flights.now < 2 ^ 32 }
    requires service { 1 ≤ slots.now.service }
    requires span { 1 ≤ span }
    requires begin { All (λ (w : Wait). begin ≤ w.arrival) waits.now }
    requires rounds { All (λ (w : Wait). round_at span begin w.start ≤ rounds) waits.now }
    ensures size { IfOk result (λ spare. length spare.row.items ≡ rounds + 1) }
    ensures rows { IfOk result (λ spare. (round : ℕ) → round ≤ rounds → slice_index spare.row.items round ≡ min MOST_SPARE (in_round span begin round (spare_starts flights.now waits.now slots.now.slots slots.now.service))) }
    ensures total { IfOk result (λ spare. spare.total ≡ length (spare_starts flights.now waits.now slots.now.slots slots.now.service)) }
{
    let clock = Clock {
        service: slots.service,
        begin,
        span,
    };
    let changes = changes_of(alloc, flights, waits)?;
    let tally = tally_of(alloc, clock, &changes, slots.slots, rounds)?;
    Ok(Spare {
        row: tally.row,
        total: tally.total,
    })
}
