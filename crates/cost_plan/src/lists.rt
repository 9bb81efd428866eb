//! A guess at a plan as lists of numbers. Proved: a plan that is answered is best, since its prices are checked.

ghost use Rattle.std.specs.Prelude.{◌≡◌, ◌<◌, ◌≤◌, length, slice_index, IfOk};
ghost use Rattle.std.specs.Option.{IfSome};
ghost use Rattle.cost_plan.specs.Words.{rows, instance_of_rows, ProvesBest, pricing_of_rows, IsPricingFor};
ghost use Rattle.cost_plan.specs.ResourcePrices.{IsAtMost};

use crate::best_plan::BestPlan;
use crate::by_weight::checked_plan;
use round_net::{Net, Prices, Schedule};
use std::alloc::{AllocError, Global};

/// The plan that has this round for each stay, if the prices prove it best. The list of these has all rounds of one resource after all
/// rounds of another.
pub(crate) fn plan_of_lists(
    alloc: Global,
    net: &Net,
    rounds: &[u32],
    worth: &[u64],
) -> Result<Option<BestPlan>, AllocError>
    requires { length rounds.now ≡ (instance_of_rows net.now).stays }
    ensures proved { IfOk result (λ found. IfSome found (λ best. ProvesBest (instance_of_rows net.now) (slice_index best.schedule) (pricing_of_rows best.prices))) }
    ensures stays { IfOk result (λ found. IfSome found (λ best. length best.schedule ≡ (instance_of_rows net.now).stays)) }
    ensures cells { IfOk result (λ found. IfSome found (λ best. IsPricingFor (instance_of_rows net.now) best.prices)) }
    ensures small { IfOk result (λ found. IfSome found (λ best. IsAtMost (instance_of_rows net.now) (pricing_of_rows best.prices) (instance_of_rows net.now).max_price)) }
{
    let schedule = Schedule::new(alloc, rounds)?;
    let prices = prices_of(alloc, net, worth)?;
    checked_plan(alloc, net, schedule, prices)
}

// The prices of such a list; none above the net's largest.
fn prices_of(alloc: Global, net: &Net, worth: &[u64]) -> Result<Prices, AllocError>
    ensures { IfOk result (λ prices. IsPricingFor (instance_of_rows net.now) prices) }
{
    let mut prices = Prices::zero(alloc, net)?;
    for resource in 0..net.rows() {
        price_resource(net, &mut prices, worth, resource);
    }
    Ok(prices)
}

fn price_resource(net: &Net, prices: &mut Prices, worth: &[u64], resource: u32)
    requires size { IsPricingFor (instance_of_rows net.now) prices.old }
    requires resource { resource < rows (instance_of_rows net.now) }
    ensures { IsPricingFor (instance_of_rows net.now) prices.new }
{
    for round in 1..net.rounds() + 1 {
        let price = price_at(net, worth, resource, round - 1);
        prices.set(resource, round, price).unwrap();
    }
}

// The price that stands in the list, or the net's largest if that is less.
fn price_at(net: &Net, worth: &[u64], resource: u32, round: u32) -> u64
    ensures { result ≤ (instance_of_rows net.now).max_price }
{
    let price = worth.get(place(net, resource, round)).copied().unwrap_or(0);
    let most = net.max_price();
    if price > most { most } else { price }
}

/// The place of a row and a round, from 0, in a list that has all rounds of one resource after all rounds of another.
pub(crate) fn place(net: &Net, resource: u32, round: u32) -> usize {
    (resource as usize)
        .saturating_mul(net.rounds() as usize)
        .saturating_add(round as usize)
}
