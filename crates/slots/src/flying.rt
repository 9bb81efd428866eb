//! How many are in flight when each flight is started.

ghost use Rattle.std.specs.Prelude.{◌≡◌, ◌<◌, ◌≤◌, ◌^◌, IfOk, map, length, All};
ghost use Rattle.slots.specs.Flights.{Flight, greatest, span_held};
ghost use Rattle.slots.specs.Spans.{covering};

use crate::bounds::bounds_of;
use crate::flight::Flight;
use crate::spans::spans_held;
use std::alloc::{AllocError, Global};

/// For each flight how many are in flight at its start. It fails only if there is no memory.
pub fn flying_at_starts(
    alloc: Global,
    usual: u64,
    flights: &[Flight],
) -> Result<Vec<u32>, AllocError>
    requires few { length flights.now < 2 ^ 32 }
    ensures { IfOk result (λ flying. flying.items ≡ map (λ (f : Flight). covering (map (span_held usual) flights.now) f.start) flights.now) }
{
    let spans = spans_held(alloc, usual, flights)?;
    let bounds = bounds_of(alloc, &spans)?;
    let mut flying = Vec::with_capacity(alloc, flights.len())?;
    for flight in flights {
        flying.push(bounds.covering(flight.start) as u32)?;
    }
    Ok(flying)
}

/// The greatest of numbers, and 0 of none.
pub fn greatest(numbers: &[u32]) -> u32
    ensures { result ≡ greatest numbers.now }
{
    let mut most = 0;
    for number in numbers {
        most = most.max(*number);
    }
    most
}
