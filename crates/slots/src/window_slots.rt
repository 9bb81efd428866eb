//! The slots of a device in a window of a capture, and how long it serves a request in it.

ghost use Rattle.std.specs.Prelude.{◌≡◌, ◌≢◌, ◌+◌, ◌<◌, ◌≤◌, ◌^◌, ◌++◌, nat_le, nat_lt, if◌then◌else◌, IfOk, IfErr, IfSome, Ok, Err, length};
ghost use Rattle.slots.specs.Flights.{ENOUGH, mean_of};
ghost use Rattle.slots.specs.Windowed.{slots_in_window};
ghost use Rattle.slots.specs.declared.slots_fault.SlotsFault.TheVariants.{OutOfMemory};

use crate::flight::Flight;
use crate::found::service_by;
use crate::numbered::{NumberedFlight, flights_in_window, greatest_number, numbered};
use crate::service::{Total, total_of, total_of_last_numbered};
use crate::slots_fault::SlotsFault;
use std::alloc::{AllocError, Global};

/// What is known of a device when a window begins.
#[derive(Clone, Copy)]
pub struct Known {
    /// The most that were in flight at one time since the capture began.
    pub in_flight: u32,
    /// How long it served a request, in nanoseconds, in the latest window in which that could be seen.
    pub service: Option<u64>,
}

/// What is known of a device when a window ends.
#[derive(Clone, Copy)]
pub struct WindowSlots {
    /// The slots: the depth that was given, or else the most that were in flight at one time, and at least 1.
    pub slots: u32,
    /// The most that were in flight at one time since the capture began.
    pub in_flight: u32,
    /// How long it serves a request, in nanoseconds, rounded up. If no completion in this window is after its start, it is that of
    /// the window before.
    pub service: Option<u64>,
    /// How many flights that were completed in this window took the last slot. The service time is their mean if they are at least
    /// [`ENOUGH`](crate::ENOUGH).
    pub by_last_slot: u32,
}

impl Known {
    /// Of a device at the begin of a capture: nothing.
    pub fn nothing() -> Known
        ensures in_flight { result.in_flight ≡ 0 }
        ensures service { result.service ≡ None }
    {
        Known {
            in_flight: 0,
            service: None,
        }
    }
}

impl WindowSlots {
    /// What is known when the next window begins.
    pub fn known(&self) -> Known
        ensures in_flight { result.in_flight ≡ self.now.in_flight }
        ensures service { result.service ≡ self.now.service }
    {
        Known {
            in_flight: self.in_flight,
            service: self.service,
        }
    }
}

/// The slots of a device in a window, with this depth if one is given: by the flights that were started before the window and held
/// their slots when it began, each with its number from then, and by those that were started in it. A flight that goes on at the
/// window's end ends there, put back. One whose end isn't known holds no slot. It fails if the depth is below what was in flight at
/// one time, or if there is no memory.
pub fn slots_in_window(
    alloc: Global,
    earlier: &[NumberedFlight],
    own: &[Flight],
    known: Known,
    depth: Option<u32>,
) -> Result<WindowSlots, SlotsFault>
    requires few { length earlier.now + length own.now < 2 ^ 32 }
    ensures ok { IfOk result (λ slots. slots_in_window earlier.now own.now known depth ≡ Ok slots) }
    ensures err { IfErr result (λ e. e ≢ OutOfMemory → slots_in_window earlier.now own.now known depth ≡ Err e) }
    ensures service { IfOk result (λ slots. IfSome known.service (λ t. 1 ≤ t) → IfSome slots.service (λ t. 1 ≤ t)) }
{
    let flights = flights_in_window(alloc, earlier, own)?;
    let own = numbered(alloc, &flights, own)?;
    let in_flight = known.in_flight.max(greatest_number(&own));
    let slots = depth.unwrap_or(in_flight.max(1));
    if slots < in_flight {
        return Err(SlotsFault::TooFew(in_flight));
    }
    let all = joined(alloc, earlier, &own)?;
    let last = total_of_last_numbered(&all, in_flight);
    Ok(WindowSlots {
        slots,
        in_flight,
        service: service_in_window(known.service, last, total_of(&flights)),
        by_last_slot: last.count,
    })
}

// All flights with their numbers.
fn joined(
    alloc: Global,
    earlier: &[NumberedFlight],
    own: &[NumberedFlight],
) -> Result<Vec<NumberedFlight>, AllocError>
    ensures { IfOk result (λ all. all.items ≡ earlier.now ++ own.now) }
{
    let mut all = Vec::with_capacity(alloc, earlier.len())?;
    all.extend_from_slice(earlier)?;
    all.extend_from_slice(own)?;
    Ok(all)
}

// The service time, if it can be seen in this window, or else what is known.
fn service_in_window(known: Option<u64>, last: Total, all: Total) -> Option<u64>
    ensures { result ≡ (if nat_lt 0 all.sum then Some (if nat_le ENOUGH last.count then mean_of last.sum last.count else mean_of all.sum all.count) else known) }
{
    if all.sum > 0 {
        Some(service_by(last, all))
    } else {
        known
    }
}
