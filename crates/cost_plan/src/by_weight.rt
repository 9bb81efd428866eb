//! The order by weight (Smith's rule for unit jobs, 1956) as a plan. Proved: a plan that is answered is best, since its prices are
//! checked.

ghost use Rattle.std.specs.Prelude.{◌≡◌, ◌≤◌, length, slice_index, IfOk};
ghost use Rattle.std.specs.Option.{IfSome};
ghost use Rattle.cost_plan.specs.Words.{instance_of_rows, live_of_rows, IsSound, ProvesBest, pricing_of_rows, IsPricingFor};
ghost use Rattle.cost_plan.specs.ResourcePrices.{IsAtMost};

use crate::best_plan::BestPlan;
use orders::{Order, closed_prices, ordered};
use price_check::{Verdict, check};
use round_net::{Net, Prices, Schedule};
use std::alloc::{AllocError, Global};

/// The schedule of the order by weight, if all are sent in time by it, and prices in closed form prove it best. They do where each
/// one that waits finds its device full.
pub(crate) fn plan_by_weight(alloc: Global, net: &Net) -> Result<Option<BestPlan>, AllocError>
    ensures proved { IfOk result (λ found. IfSome found (λ best. ProvesBest (instance_of_rows net.now) (slice_index best.schedule) (pricing_of_rows best.prices))) }
    ensures stays { IfOk result (λ found. IfSome found (λ best. length best.schedule ≡ (instance_of_rows net.now).stays)) }
    ensures cells { IfOk result (λ found. IfSome found (λ best. IsPricingFor (instance_of_rows net.now) best.prices)) }
    ensures small { IfOk result (λ found. IfSome found (λ best. IsAtMost (instance_of_rows net.now) (pricing_of_rows best.prices) (instance_of_rows net.now).max_price)) }
{
    let _rounds = net.rounds();
    let made = ordered(alloc, net, Order::ByWeight)?;
    if made.unsent > 0 || made.late > 0 {
        return Ok(None);
    }
    let prices = closed_prices(alloc, net, &made.schedule)?;
    checked_plan(alloc, net, made.schedule, prices)
}

/// The plan of this schedule and these prices, if the prices prove it best.
pub(crate) fn checked_plan(
    alloc: Global,
    net: &Net,
    schedule: Schedule,
    prices: Prices,
) -> Result<Option<BestPlan>, AllocError>
    requires stays { length schedule ≡ (instance_of_rows net.now).stays }
    requires cells { IsPricingFor (instance_of_rows net.now) prices }
    ensures proved { IfOk result (λ found. IfSome found (λ best. ProvesBest (instance_of_rows net.now) (slice_index best.schedule) (pricing_of_rows best.prices))) }
    ensures stays { IfOk result (λ found. IfSome found (λ best. length best.schedule ≡ (instance_of_rows net.now).stays)) }
    ensures cells { IfOk result (λ found. IfSome found (λ best. IsPricingFor (instance_of_rows net.now) best.prices)) }
    ensures small { IfOk result (λ found. IfSome found (λ best. IsAtMost (instance_of_rows net.now) (pricing_of_rows best.prices) (instance_of_rows net.now).max_price)) }
{
    let mut counts = vec![in alloc; 0; prices.cells()]?;
    match check(net, &schedule, &prices, &mut counts) {
        Verdict::Proved => Ok(Some(BestPlan { schedule, prices })),
        _ => Ok(None),
    }
}
