//! The flights and the waits of a device in a window.

ghost use Rattle.std.specs.Prelude.{◌≡◌, ◌||◌, ◌&&◌, IfOk, filter, map};
ghost use Rattle.slots.specs.declared.numbered.NumberedFlight.{NumberedFlight};
ghost use Rattle.slots.specs.declared.flight.Wait.{Wait};
ghost use Rattle.capture_windows.specs.Attempts.{Attempt, is_request, is_waiting};
ghost use Rattle.capture_windows.specs.Devices.{earlier_flights, end_by, flight_until, numbered_until, own_flights, wait_in};

use crate::attempt::{Attempt, before};
use crate::requests::{is_request, is_waiting};
use crate::time_span::TimeSpan;
use slots::{End, Flight, NumberedFlight, Wait};
use std::alloc::{AllocError, Global};

/// Of a device's attempts, the flights that were started before a window. It fails only if there is no memory.
pub(crate) fn earlier_flights(
    alloc: Global,
    attempts: &[Attempt],
    span: TimeSpan,
) -> Result<Vec<NumberedFlight>, AllocError>
    ensures { IfOk result (λ flights. flights.items ≡ earlier_flights span attempts.now) }
{
    attempts
        .iter()
        .filter(|attempt| attempt.has_slot && attempt.starts_before(span.from))
        .map(|attempt| numbered_until(attempt, span.until))
        .collect(alloc)
}

/// The flights that were started in it. It fails only if there is no memory.
pub(crate) fn own_flights(
    alloc: Global,
    attempts: &[Attempt],
    span: TimeSpan,
) -> Result<Vec<Flight>, AllocError>
    ensures { IfOk result (λ flights. flights.items ≡ own_flights span attempts.now) }
{
    attempts
        .iter()
        .filter(|attempt| attempt.has_slot && attempt.starts_in(span))
        .map(|attempt| flight_until(attempt, span.until))
        .collect(alloc)
}

/// The waits of a device's attempts in a window whose round 1 begins at `begin`. It fails only if there is no memory.
pub(crate) fn waits_in(
    alloc: Global,
    attempts: &[Attempt],
    span: TimeSpan,
    begin: u64,
) -> Result<Vec<Wait>, AllocError>
    ensures { IfOk result (λ waits. waits.items ≡ map (wait_in span begin) (filter (λ (a : Attempt). is_request span a || is_waiting span.until a) attempts.now)) }
{
    attempts
        .iter()
        .filter(|attempt| is_request(attempt, span) || is_waiting(attempt, span.until))
        .map(|attempt| wait_in(attempt, span, begin))
        .collect(alloc)
}

// An attempt's flight up to a time, with its number.
fn numbered_until(attempt: &Attempt, time: u64) -> NumberedFlight
    ensures { result ≡ numbered_until time attempt.now }
{
    NumberedFlight {
        flight: flight_until(attempt, time),
        number: attempt.number,
    }
}

// An attempt's flight up to a time.
fn flight_until(attempt: &Attempt, time: u64) -> Flight
    ensures { result ≡ flight_until time attempt.now }
{
    let completed = before(attempt.request.completed, time);
    let put_back = before(attempt.request.retried, time);
    Flight {
        start: attempt.request.started.unwrap_or(0),
        end: end_by(time, completed, put_back),
    }
}

// How a flight ended that ends at a time at the latest.
fn end_by(time: u64, completed: Option<u64>, put_back: Option<u64>) -> End
    ensures { result ≡ end_by time completed put_back }
{
    match completed {
        Some(at) => End::Completed(at),
        None => End::PutBack(put_back.unwrap_or(time)),
    }
}

// How a request waits in a window.
fn wait_in(attempt: &Attempt, span: TimeSpan, begin: u64) -> Wait
    ensures { result ≡ wait_in span begin attempt.now }
{
    Wait {
        arrival: attempt.request.arrival.max(begin),
        start: before(attempt.request.started, span.until).unwrap_or(span.until),
    }
}
