//! Prices out of potentials. Proved: a cell is worth how far its potential is above that of the node above it, and no more than the
//! net's largest price.

ghost use Rattle.std.specs.Prelude.{◌≡◌, ◌+◌, ◌<◌, ◌≤◌, length, IfOk};
ghost use Rattle.cost_plan.specs.Words.{potential_of, rows, instance_of_rows, pricing_of_rows, IsPricingFor};
ghost use Rattle.cost_plan.specs.Cells.{resource_above, node_count};
ghost use Rattle.cost_plan.specs.ResourcePrices.{resource_price, PricesResources};

use crate::cells::{node, node_above, resource_above};
use negative_cycle::Potentials;
use round_net::{Net, Prices};
use std::alloc::{AllocError, Global};

/// What an opening of a cell is worth, and 0 where it has none. The resource above its own is given.
fn price_of(net: &Net, potentials: &Potentials, resource: u32, up: u32, round: u32) -> u64
    requires size { length potentials.now.potentials ≡ node_count (instance_of_rows net.now) }
    requires most { potentials.now.most ≡ (instance_of_rows net.now).max_price }
    requires resource { resource < rows (instance_of_rows net.now) }
    requires up { up ≡ resource_above (instance_of_rows net.now) resource }
    requires within { up ≤ rows (instance_of_rows net.now) }
    requires first { 1 ≤ round }
    requires last { round ≤ (instance_of_rows net.now).rounds }
    ensures same { result ≡ resource_price (instance_of_rows net.now) (potential_of potentials.now) resource round }
    ensures most { result ≤ (instance_of_rows net.now).max_price }
{
    if net.cap(resource, round) == 0 {
        return 0;
    }
    let cell = potentials.potential(node(net, resource, round));
    cell.saturating_sub(potentials.potential(node_above(net, up, round)))
}

// Sets the prices of a resource.
fn price_resource(net: &Net, potentials: &Potentials, prices: &mut Prices, resource: u32)
    requires potentials { length potentials.now.potentials ≡ node_count (instance_of_rows net.now) }
    requires most { potentials.now.most ≡ (instance_of_rows net.now).max_price }
    requires size { IsPricingFor (instance_of_rows net.now) prices.old }
    requires resource { resource < rows (instance_of_rows net.now) }
    requires before { PricesResources (instance_of_rows net.now) (potential_of potentials.now) (pricing_of_rows prices.old) resource }
    ensures size { IsPricingFor (instance_of_rows net.now) prices.new }
    ensures priced { PricesResources (instance_of_rows net.now) (potential_of potentials.now) (pricing_of_rows prices.new) (resource + 1) }
{
    let up = resource_above(net, resource);
    for round in 1..net.rounds() + 1 {
        let price = price_of(net, potentials, resource, up, round);
        prices.set(resource, round, price).unwrap();
    }
}

/// The prices that the potentials give.
pub fn prices_of(alloc: Global, net: &Net, potentials: &Potentials) -> Result<Prices, AllocError>
    requires size { length potentials.now.potentials ≡ node_count (instance_of_rows net.now) }
    requires most { potentials.now.most ≡ (instance_of_rows net.now).max_price }
    ensures size { IfOk result (λ prices. IsPricingFor (instance_of_rows net.now) prices) }
    ensures priced { IfOk result (λ prices. PricesResources (instance_of_rows net.now) (potential_of potentials.now) (pricing_of_rows prices) (rows (instance_of_rows net.now))) }
{
    let mut prices = Prices::zero(alloc, net)?;
    for resource in 0..net.rows() {
        price_resource(net, potentials, &mut prices, resource);
    }
    Ok(prices)
}
