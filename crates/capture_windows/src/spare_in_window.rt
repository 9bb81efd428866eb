//! The spare starts of a device in a window.

ghost use Rattle.std.specs.Prelude.{◌≡◌, ◌+◌, ◌<◌, ◌≤◌, ◌^◌, All, IfOk, IfSome, length};
ghost use Rattle.slots.specs.declared.flight.Wait.{Wait};
ghost use Rattle.slots.specs.Gaps.{round_at};
ghost use Rattle.capture_windows.specs.Devices.{AreSpare, IsSpare};
ghost use Rattle.slots.specs.Gaps.{spare_starts};

use crate::time_span::Rounds;
use slots::{Flight, Slots, Spare, Wait, WindowSlots, spare_starts};
use std::alloc::{AllocError, Global};

/// The spare starts of a device with these slots, if its service time is known. Each wait arrives in round 1 or later, and ends with
/// the last round or before. It fails only if there is no memory.
pub(crate) fn spare_in_window(
    alloc: Global,
    flights: &[Flight],
    waits: &[Wait],
    slots: &WindowSlots,
    rounds: Rounds,
) -> Result<Option<Spare>, AllocError>
    requires few { length flights.now < 2 ^ 32 }
    requires service { IfSome slots.now.service (λ t. 1 ≤ t) }
    requires span { 1 ≤ rounds.length }
    requires count { rounds.count + 2 < 2 ^ 32 }
    requires begin { All (λ (w : Wait). rounds.begin ≤ w.arrival) waits.now }
    requires rounds { All (λ (w : Wait). round_at rounds.length rounds.begin w.start ≤ rounds.count + 1) waits.now }
    ensures { IfOk result (λ spare. IsSpare rounds flights.now waits.now slots.now.slots slots.now.service spare) }
{
    match slots.service {
        None => Ok(None),
        Some(service) => Ok(Some(spare_by(alloc, flights, waits, slots, service, rounds)?)),
    }
}

// The same by a service time. No spare start is in the round that begins when the last one ends.
fn spare_by(
    alloc: Global,
    flights: &[Flight],
    waits: &[Wait],
    slots: &WindowSlots,
    service: u64,
    rounds: Rounds,
) -> Result<Spare, AllocError>
    requires few { length flights.now < 2 ^ 32 }
    requires service { 1 ≤ service }
    requires span { 1 ≤ rounds.length }
    requires count { rounds.count + 2 < 2 ^ 32 }
    requires begin { All (λ (w : Wait). rounds.begin ≤ w.arrival) waits.now }
    requires rounds { All (λ (w : Wait). round_at rounds.length rounds.begin w.start ≤ rounds.count + 1) waits.now }
    ensures { IfOk result (λ spare. AreSpare rounds (spare_starts flights.now waits.now slots.now.slots service) spare) }
{
    let slots = Slots {
        slots: slots.slots,
        in_flight: slots.in_flight,
        service,
        by_last_slot: slots.by_last_slot,
    };
    let last = rounds.count + 1;
    let spare = spare_starts(
        alloc,
        flights,
        waits,
        &slots,
        rounds.begin,
        rounds.length,
        last,
    )?;
    let mut row = spare.row;
    row.truncate(last as usize);
    Ok(Spare {
        row,
        total: spare.total,
    })
}
