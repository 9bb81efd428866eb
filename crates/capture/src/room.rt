//! What devices had room for.

ghost use Rattle.std.specs.Prelude.{◌≡◌, ◌==◌, ◌≤◌, All, IfOk, filter, map};
ghost use Rattle.slots.specs.declared.flight.Wait.{Wait};
ghost use Rattle.capture.specs.Rooms.{flights_of, waits_of, wait_of};
ghost use Rattle.capture.specs.Rounds.{first_arrival};
ghost use Rattle.capture.specs.Timed.{is_started, started};

use crate::capture::Capture;
use crate::device_flight::DeviceFlight;
use crate::rounds::first_arrival;
use crate::span_time::span_nanoseconds;
use crate::started::{are_by_arrival, first_started, start_of, started};
use crate::timed_request::TimedRequest;
use slots::{Flight, Slots, SlotsFault, Spare, Wait, slots_of, spare_starts};
use std::alloc::{AllocError, Global};

/// What a device had room for: its slots, and the starts that they had room for in each round.
#[derive(Drop)]
pub struct Room {
    pub slots: Slots,
    pub spare: Spare,
}

impl Capture {
    ghost use Rattle.std.specs.Prelude.{◌≡◌, ◌≢◌, ◌<◌, ◌^◌, Ok, Err, IfOk, IfErr, IfSome, length, option_map};
    ghost use Rattle.slots.specs.Flights.{slots_of};
    ghost use Rattle.slots.specs.declared.slots_fault.SlotsFault.TheVariants.{OutOfMemory};
    ghost use Rattle.capture.specs.Rounds.{in_rounds};
    ghost use Rattle.capture.specs.Rooms.{Room, IsRoom, flights_of};

    /// What a device had room for beside the requests of this capture, with this depth if one is given. None if none of its flights
    /// was completed after its start: then idle slots can't be seen.
    pub fn room(
        &self,
        alloc: Global,
        requests: &[TimedRequest],
        flights: &[DeviceFlight],
        device: u32,
        depth: Option<u32>,
    ) -> Result<Option<Room>, SlotsFault>
        requires capture { self.now ≡ in_rounds self.now.unit requests.now }
        requires few { length flights.now < 2 ^ 32 }
        ensures slots { IfOk result (λ room. slots_of (flights_of flights.now device) depth ≡ Ok (option_map (λ (r : Room). r.slots) room)) }
        ensures spare { IfOk result (λ room. IfSome room (IsRoom self.now.unit requests.now flights.now device)) }
        ensures err { IfErr result (λ e. e ≢ OutOfMemory → slots_of (flights_of flights.now device) depth ≡ Err e) }
    {
        let own = flights_of(alloc, flights, device)?;
        let Some(slots) = slots_of(alloc, &own, depth)? else {
            return Ok(None);
        };
        let Waits { begin, list } = waits_in(alloc, requests, device)?;
        let span = span_nanoseconds(self.round());
        let spare = spare_starts(alloc, &own, &list, &slots, begin, span, self.rounds())?;
        Ok(Some(Room { slots, spare }))
    }
}

// The flights of a device.
fn flights_of(
    alloc: Global,
    flights: &[DeviceFlight],
    device: u32,
) -> Result<Vec<Flight>, AllocError>
    ensures { IfOk result (λ own. own.items ≡ flights_of flights.now device) }
{
    flights
        .iter()
        .filter(|flight| flight.device == device)
        .map(|flight| flight.flight)
        .collect(alloc)
}

// When the first started request arrives, and the waits of a device's started requests.
#[derive(Drop)]
struct Waits {
    begin: u64,
    list: Vec<Wait>,
}

// Requests that are by arrival need no copy in their order.
fn waits_in(alloc: Global, requests: &[TimedRequest], device: u32) -> Result<Waits, AllocError>
    ensures begin { IfOk result (λ waits. waits.begin ≡ first_arrival (started requests.now)) }
    ensures list { IfOk result (λ waits. waits.list.items ≡ waits_of (started requests.now) device) }
    ensures first { IfOk result (λ waits. All (λ (w : Wait). waits.begin ≤ w.arrival) waits.list.items) }
{
    if are_by_arrival(requests) {
        return Ok(Waits {
            begin: first_started(requests),
            list: waits_where_started(alloc, requests, device)?,
        });
    }
    let taken = started(alloc, requests)?;
    Ok(Waits {
        begin: first_arrival(&taken),
        list: waits_of(alloc, &taken, device)?,
    })
}

// The waits of those of a device's requests that were started.
fn waits_where_started(
    alloc: Global,
    requests: &[TimedRequest],
    device: u32,
) -> Result<Vec<Wait>, AllocError>
    ensures { IfOk result (λ waits. waits.items ≡ waits_of (filter is_started requests.now) device) }
{
    requests
        .iter()
        .filter(|request| request.started.is_some())
        .filter(|taken| taken.device == device)
        .map(wait_of)
        .collect(alloc)
}

// The waits of a device's started requests.
fn waits_of(alloc: Global, taken: &[TimedRequest], device: u32) -> Result<Vec<Wait>, AllocError>
    ensures { IfOk result (λ waits. waits.items ≡ waits_of taken.now device) }
{
    taken
        .iter()
        .filter(|request| request.device == device)
        .map(wait_of)
        .collect(alloc)
}

// The wait of a started request.
fn wait_of(request: &TimedRequest) -> Wait
    ensures { result ≡ wait_of request.now }
{
    Wait {
        arrival: request.arrival,
        start: start_of(request),
    }
}
