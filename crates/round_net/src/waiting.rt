//! What the waiting of all stays costs by a schedule.

ghost use Rattle.std.specs.Prelude.{◌≡◌, ◌<◌, ◌≤◌, ◌*◌, ◌-◌, ◌^◌, length, slice_index, MatchOption, IfSome};
ghost use Rattle.round_net.specs.Rows.{instance_of_rows, live_of_rows};
ghost use Rattle.round_net.specs.Schedules.{cost, IsEarly, IsNowhereEarly};
ghost use Rattle.round_net.specs.Sound.{IsSound};

use crate::net::Net;
use crate::schedule::Schedule;

/// What the waiting of all stays costs, in weighted rounds, where the schedule says when each of them is sent. None where
/// a stay lies before its arrival. The schedule has to have a round for each stay of the net.
pub fn cost(net: &Net, schedule: &Schedule) -> Option<u64>
    requires { length schedule.now ≡ (instance_of_rows net.now).stays }
    ensures waits { MatchOption result
        (IsEarly (instance_of_rows net.now) (slice_index schedule.now))
        (λ c. IsNowhereEarly (instance_of_rows net.now) (slice_index schedule.now) × (c ≡ cost (instance_of_rows net.now) (slice_index schedule.now))) }
    ensures small { IfSome result (λ c. c ≤ 2 ^ 42 * (instance_of_rows net.now).stays) }
    ensures sound { IsSound (instance_of_rows net.now) (live_of_rows net.now) }
{
    let mut total = 0;
    for stay in 0..net.stays() {
        total += waiting(net, schedule, stay)?;
    }
    Some(total)
}

/// What the waiting of all stays cost, in weighted rounds, as they were sent.
pub fn live_cost(net: &Net) -> u64
    ensures same { result ≡ cost (instance_of_rows net.now) (live_of_rows net.now) }
    ensures small { result ≤ 2 ^ 42 * (instance_of_rows net.now).stays }
    ensures sound { IsSound (instance_of_rows net.now) (live_of_rows net.now) }
{
    let mut total = 0;
    for stay in 0..net.stays() {
        total += waited(net, stay);
    }
    total
}

// What the stay's waiting cost, as it was sent.
fn waited(net: &Net, stay: u32) -> u64
    requires { stay < (instance_of_rows net.now).stays }
    ensures same { let n = instance_of_rows net.now in result ≡ n.weight stay * (live_of_rows net.now stay - n.arrival stay) }
    ensures short { result ≤ 2 ^ 42 }
{
    u64::from(net.weight(stay)) * u64::from(net.live(stay).saturating_sub(net.arrival(stay)))
}

// What the stay's waiting costs, unless it lies before its arrival.
fn waiting(net: &Net, schedule: &Schedule, stay: u32) -> Option<u64>
    requires size { length schedule.now ≡ (instance_of_rows net.now).stays }
    requires stay { stay < (instance_of_rows net.now).stays }
    ensures same { let n = instance_of_rows net.now in let r = slice_index schedule.now stay in
        MatchOption result (r < n.arrival stay) (λ c. (n.arrival stay ≤ r) × (c ≡ n.weight stay * (r - n.arrival stay))) }
    ensures short { IfSome result (λ c. c ≤ 2 ^ 42) }
{
    let waited = schedule.round(stay).checked_sub(net.arrival(stay))?;
    Some(u64::from(net.weight(stay)) * u64::from(waited))
}
