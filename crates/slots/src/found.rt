//! The slots of a device, and how long it serves a request.

ghost use Rattle.std.specs.Prelude.{◌≡◌, ◌≢◌, ◌<◌, ◌≤◌, ◌^◌, ℕ, IfOk, IfErr, IfSome, Ok, Err, length, nat_le, if◌then◌else◌};
ghost use Rattle.slots.specs.Flights.{ENOUGH, in_flight, mean_of, slots_of};
ghost use Rattle.slots.specs.declared.slots_fault.SlotsFault.TheVariants.{OutOfMemory};

use crate::flight::Flight;
use crate::flying::{flying_at_starts, greatest};
use crate::service::{Total, total_of, total_of_last};
use crate::slots_fault::SlotsFault;
use std::alloc::Global;

/// With fewer flights that took the last slot, the service time is that of all.
pub const ENOUGH: u32 = 16;

/// What is found of a device.
#[derive(Clone, Copy)]
pub struct Slots {
    /// The slots: the depth that was given, or else the most that were in flight at one time.
    pub slots: u32,
    /// The most that were in flight at one time.
    pub in_flight: u32,
    /// How long it serves a request, in nanoseconds, rounded up: at least 1.
    pub service: u64,
    /// How many completed flights took the last slot. The service time is their mean if they are at least [`ENOUGH`].
    pub by_last_slot: u32,
}

/// The slots of a device with these flights, and with this depth if one is given. None if no completion is after its start. It fails
/// if the depth is below what was in flight at one time, or if there is no memory.
pub fn slots_of(
    alloc: Global,
    flights: &[Flight],
    depth: Option<u32>,
) -> Result<Option<Slots>, SlotsFault>
    requires few { length flights.now < 2 ^ 32 }
    ensures ok { IfOk result (λ slots. slots_of flights.now depth ≡ Ok slots) }
    ensures err { IfErr result (λ e. e ≢ OutOfMemory → slots_of flights.now depth ≡ Err e) }
    ensures bound { IfOk result (λ slots. IfSome slots (λ s. (t : ℕ) → in_flight flights.now t ≤ s.in_flight)) }
    ensures reached { IfOk result (λ slots. IfSome slots (λ s. (t : ℕ) × (in_flight flights.now t ≡ s.in_flight))) }
    ensures service { IfOk result (λ slots. IfSome slots (λ s. 1 ≤ s.service)) }
{
    let all = total_of(flights);
    if all.sum == 0 {
        return Ok(None);
    }
    let usual = all.mean();
    let flying = flying_at_starts(alloc, usual, flights)?;
    let most = greatest(&flying);
    let slots = depth.unwrap_or(most);
    if slots < most {
        return Err(SlotsFault::TooFew(most));
    }
    let last = total_of_last(flights, &flying, usual, most);
    Ok(Some(Slots {
        slots,
        in_flight: most,
        service: service_by(last, all),
        by_last_slot: last.count,
    }))
}

/// The service time: by the flights that took the last slot if they are enough, or else by all.
pub fn service_by(last: Total, all: Total) -> u64
    ensures { result ≡ (if nat_le ENOUGH last.count then mean_of last.sum last.count else mean_of all.sum all.count) }
{
    if last.count >= ENOUGH {
        last.mean()
    } else {
        all.mean()
    }
}
