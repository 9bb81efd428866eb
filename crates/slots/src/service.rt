//! Times of service and their mean.

ghost use Rattle.std.specs.Prelude.{◌≡◌, ◌==◌, ◌+◌, ◌-◌, ◌*◌, ◌/◌, ◌^◌, ◌<◌, ◌≤◌, ◌&&◌, ℕ, max, nat_lt, length, map, filter, sum, is_some, unwrap_or, if◌then◌else◌};
ghost use Rattle.slots.specs.Flights.{Flight, end_after, last_time, mean_of, takes_last_by, time_of_service, times_of_service};
ghost use Rattle.slots.specs.Windowed.{last_times_of};

use crate::flight::{End, Flight};
use crate::numbered::NumberedFlight;
use crate::spans::span_held;

/// The sum of times, and how many there are.
#[derive(Clone, Copy)]
pub struct Total {
    pub sum: u128,
    pub count: u32,
    ghost within: { sum ≤ count * 18446744073709551615 },
}

impl Total {
    // Of none.
    fn none() -> Total
        ensures sum { result.sum ≡ 0 }
        ensures count { result.count ≡ 0 }
    {
        Total { sum: 0, count: 0 }
    }

    // With one time more, if there is one.
    fn with(self, time: Option<u64>) -> Total
        requires { self.count + 1 < 2 ^ 32 }
        ensures sum { result.sum ≡ self.sum + unwrap_or time 0 }
        ensures count { result.count ≡ self.count + (if is_some time then 1 else 0) }
    {
        match time {
            None => self,
            Some(time) => Total {
                sum: self.sum + time as u128,
                count: self.count + 1,
            },
        }
    }

    /// The mean, rounded up, and 0 of none.
    pub fn mean(&self) -> u64
        ensures { result ≡ mean_of self.now.sum self.now.count }
    {
        if self.count == 0 {
            return 0;
        }
        let count = self.count as u128;
        ((self.sum + (count - 1)) / count) as u64
    }
}

/// The times of service of all flights that were completed.
pub fn total_of(flights: &[Flight]) -> Total
    requires few { length flights.now < 2 ^ 32 }
    ensures sum { result.sum ≡ sum (times_of_service flights.now) }
    ensures count { result.count ≡ length (times_of_service flights.now) }
{
    let mut total = Total::none();
    for flight in flights {
        total = total.with(time_of_service(flight));
    }
    total
}

/// Those of the flights that took the last slot, by how many were in flight at each one's start.
pub fn total_of_last(flights: &[Flight], flying: &[u32], usual: u64, most: u32) -> Total
    requires few { length flights.now < 2 ^ 32 }
    requires each { length flying.now ≡ length flights.now }
    ensures sum { (number : Flight → ℕ) → flying.now ≡ map number flights.now → result.sum ≡ sum (times_of_service (filter (takes_last_by usual number most) flights.now)) }
    ensures count { (number : Flight → ℕ) → flying.now ≡ map number flights.now → result.count ≡ length (times_of_service (filter (takes_last_by usual number most) flights.now)) }
{
    let mut total = Total::none();
    for (place, flight) in flights.iter().enumerate() {
        let takes_last = flying[place] == most;
        total = total.with(last_time(usual, flight, takes_last));
    }
    total
}

/// Those of the flights of a window that took the last slot, by their numbers.
pub fn total_of_last_numbered(flights: &[NumberedFlight], most: u32) -> Total
    requires few { length flights.now < 2 ^ 32 }
    ensures sum { result.sum ≡ sum (last_times_of most flights.now) }
    ensures count { result.count ≡ length (last_times_of most flights.now) }
{
    let mut total = Total::none();
    for each in flights {
        total = total.with(last_time(0, &each.flight, each.number == most));
    }
    total
}

// The time of service of a flight that was completed.
fn time_of_service(flight: &Flight) -> Option<u64>
    ensures { result ≡ time_of_service flight.now }
{
    match flight.end {
        End::Completed(at) => Some(at.saturating_sub(flight.start)),
        _ => None,
    }
}

// The same, if the most were in flight at its start, and it was one of them.
fn last_time(usual: u64, flight: &Flight, are_most: bool) -> Option<u64>
    ensures { result ≡ last_time usual flight.now are_most }
{
    let span = span_held(usual, flight);
    if (span.from as u128) < span.until && are_most {
        time_of_service(flight)
    } else {
        None
    }
}
