//! The check of a schedule and its prices.

ghost use Rattle.std.specs.Prelude.{◌≡◌, ◌*◌, ◌≤◌, length, slice_index};
ghost use Rattle.price_check.specs.Words.{rows, instance_of_rows, names_of_rows, pricing_of_rows, IsPricingFor, ProvesBest};
ghost use Rattle.price_check.specs.Verdicts.{Means, IsBest};

use crate::faults::first_fault;
use crate::payments::paid;
use crate::value::offered;
use crate::verdict::Verdict;
use round_net::{Net, Prices, Schedule, cost};

/// Whether prices prove that a schedule is a best one, whoever made them: it is admissible, and costs what all stays pay,
/// each in the round that is cheapest for it, less what all openings are worth.
///
/// The schedule and the prices have to be of the net's size, and the list has to have a count for each cell of the net. It
/// is used up, and no memory is taken.
pub fn check(net: &Net, schedule: &Schedule, prices: &Prices, counts: &mut [u32]) -> Verdict
    requires schedule { length schedule.now ≡ (instance_of_rows net.now).stays }
    requires prices { IsPricingFor (instance_of_rows net.now) prices.now }
    requires cells { let n = instance_of_rows net.now in rows n * n.rounds ≤ length counts.old }
    ensures means { Means (instance_of_rows net.now) (names_of_rows net.now) (slice_index schedule.now) (pricing_of_rows prices.now) result }

    // Prices that prove the schedule best are accepted, and if they are, no admissible schedule costs less.
    ensures proved { ProvesBest (instance_of_rows net.now) (slice_index schedule.now) (pricing_of_rows prices.now) → result ≡ Verdict.Proved }
    ensures best { result ≡ Verdict.Proved → IsBest (instance_of_rows net.now) (slice_index schedule.now) }
{
    if let Some((stay, cause)) = first_fault(net, schedule, counts) {
        return Verdict::NotAdmissible(net.stay(stay), cause);
    }
    let Some(cost) = cost(net, schedule) else {
        unreachable!()
    };
    let gap = u128::from(cost) + offered(net, prices) - paid(net, prices, counts);
    if gap == 0 {
        Verdict::Proved
    } else {
        Verdict::Gap(gap)
    }
}
