//! Flights with the number of those that were in flight when they were started.

ghost use Rattle.std.specs.Prelude.{◌≡◌, ◌+◌, ◌<◌, ◌≤◌, ◌^◌, List, IfOk, length, map};
ghost use Rattle.slots.specs.Bounds.{AreBounds, AreInOrder};
ghost use Rattle.slots.specs.Flights.{Flight, greatest, span_held};
ghost use Rattle.slots.specs.Windowed.{NumberedFlight, flights_in_window, flying, number_of, numbered_among};

use crate::bounds::{Bounds, bounds_of};
use crate::flight::Flight;
use crate::spans::spans_held;
use std::alloc::{AllocError, Global};

/// A flight, and how many were in flight when it was started, itself counted.
#[derive(Clone, Copy)]
pub struct NumberedFlight {
    pub flight: Flight,
    pub number: u32,
}

/// How many flights are in flight at each time.
#[derive(Drop)]
pub struct InFlight {
    pub bounds: Bounds,
    ghost few: { length bounds.begins.items < 2 ^ 32 },
    ghost order: { AreInOrder bounds.begins.items bounds.ends.items },
}

impl InFlight {
    /// Of these flights. One whose end isn't known counts at no time. It fails only if there is no memory.
    pub fn of(alloc: Global, flights: &[Flight]) -> Result<InFlight, AllocError>
        requires few { length flights.now < 2 ^ 32 }
        ensures { IfOk result (λ counts. AreBounds (map (span_held 0) flights.now) counts.bounds.begins.items counts.bounds.ends.items) }
    {
        let spans = spans_held(alloc, 0, flights)?;
        let bounds = bounds_of(alloc, &spans)?;
        Ok(InFlight { bounds })
    }

    /// How many are in flight at a time.
    pub fn at(&self, time: u64) -> u32
        ensures { (fs : List Flight) → AreBounds (map (span_held 0) fs) self.now.bounds.begins.items self.now.bounds.ends.items → result ≡ flying fs time }
    {
        self.bounds.covering(time) as u32
    }
}

/// The flights of a window: those that were started before it, and then those that were started in it. It fails only if there is no
/// memory.
pub fn flights_in_window(
    alloc: Global,
    earlier: &[NumberedFlight],
    own: &[Flight],
) -> Result<Vec<Flight>, AllocError>
    ensures { IfOk result (λ flights. flights.items ≡ flights_in_window earlier.now own.now) }
{
    let mut flights = without_numbers(alloc, earlier)?;
    flights.extend_from_slice(own)?;
    Ok(flights)
}

// Flights without their numbers.
fn without_numbers(alloc: Global, numbered: &[NumberedFlight]) -> Result<Vec<Flight>, AllocError>
    ensures { IfOk result (λ flights. flights.items ≡ map (λ (n : NumberedFlight). n.flight) numbered.now) }
{
    numbered.iter().map(|each| each.flight).collect(alloc)
}

/// Flights with the number of those of all flights that are in flight when they are started. It fails only if there is no memory.
pub fn numbered(
    alloc: Global,
    all: &[Flight],
    flights: &[Flight],
) -> Result<Vec<NumberedFlight>, AllocError>
    requires few { length all.now < 2 ^ 32 }
    ensures { IfOk result (λ numbered. numbered.items ≡ map (numbered_among all.now) flights.now) }
{
    let counts = InFlight::of(alloc, all)?;
    let mut numbered = Vec::with_capacity(alloc, flights.len())?;
    for flight in flights {
        numbered.push(NumberedFlight {
            flight: *flight,
            number: counts.at(flight.start),
        })?;
    }
    Ok(numbered)
}

/// The greatest of the numbers, and 0 of none.
pub fn greatest_number(flights: &[NumberedFlight]) -> u32
    ensures { result ≡ greatest (map number_of flights.now) }
{
    let mut most = 0;
    for flight in flights {
        most = most.max(flight.number);
    }
    most
}
