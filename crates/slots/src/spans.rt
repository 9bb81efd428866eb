//! The spans of time in which flights hold their slots and requests wait.

ghost use Rattle.std.specs.Prelude.{◌≡◌, ◌<◌, ◌^◌, All, IfOk, map};
ghost use Rattle.slots.specs.Flights.{span_held};
ghost use Rattle.slots.specs.Gaps.{Wait, span_waited};

use crate::flight::{End, Flight, Wait};
use std::alloc::{AllocError, Global};

/// From a time up to before another, in nanoseconds. It is empty if the other is no later.
#[derive(Clone, Copy)]
pub struct Span {
    pub from: u64,
    pub until: u128,
}

/// The span in which a flight holds its slot: for the usual time if its end isn't known.
pub fn span_held(usual: u64, flight: &Flight) -> Span
    ensures { result ≡ span_held usual flight.now }
{
    let until = match flight.end {
        End::Completed(at) => at as u128,
        End::PutBack(at) => at as u128,
        End::Unknown => flight.start as u128 + usual as u128,
    };
    Span {
        from: flight.start,
        until,
    }
}

/// Those of all flights. It fails only if there is no memory.
pub fn spans_held(alloc: Global, usual: u64, flights: &[Flight]) -> Result<Vec<Span>, AllocError>
    ensures { IfOk result (λ spans. spans.items ≡ map (span_held usual) flights.now) }
{
    flights
        .iter()
        .map(|flight| span_held(usual, flight))
        .collect(alloc)
}

/// The spans in which requests wait. It fails only if there is no memory.
pub fn spans_waited(alloc: Global, waits: &[Wait]) -> Result<Vec<Span>, AllocError>
    ensures spans { IfOk result (λ spans. spans.items ≡ map span_waited waits.now) }
    ensures fits { IfOk result (λ _. All (λ (w : Wait). w.start < 2 ^ 64) waits.now) }
{
    let mut spans = Vec::with_capacity(alloc, waits.len())?;
    for wait in waits {
        spans.push(Span {
            from: wait.arrival,
            until: wait.start as u128,
        })?;
    }
    Ok(spans)
}
