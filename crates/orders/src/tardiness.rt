//! Tardiness: how many stays aren't sent within the rounds, and how many only after the last round of their window.

ghost use Rattle.std.specs.Prelude.{◌≡◌, length, slice_index};
ghost use Rattle.round_net.specs.Rows.{instance_of_rows};
ghost use Rattle.orders.specs.Orders.{unsent, late};

use round_net::{Net, Schedule};

/// How many stays aren't sent within the rounds.
pub fn unsent(net: &Net, schedule: &Schedule) -> u32
    requires { length schedule.now ≡ (instance_of_rows net.now).stays }
    ensures { result ≡ unsent (instance_of_rows net.now) (slice_index schedule.now) }
{
    let mut count = 0;
    for stay in 0..net.stays() {
        if schedule.round(stay) > net.rounds() {
            count += 1;
        }
    }
    count
}

/// How many stays are sent within the rounds, but after the last round of their window.
pub fn late(net: &Net, schedule: &Schedule) -> u32
    requires { length schedule.now ≡ (instance_of_rows net.now).stays }
    ensures { result ≡ late (instance_of_rows net.now) (slice_index schedule.now) }
{
    let mut count = 0;
    for stay in 0..net.stays() {
        let round = schedule.round(stay);
        if round > net.last(stay) && round <= net.rounds() {
            count += 1;
        }
    }
    count
}
