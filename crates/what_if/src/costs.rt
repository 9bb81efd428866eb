//! What the waiting of a net costs by each order.

ghost use Rattle.std.specs.Prelude.{◌≡◌, length, slice_index, IfOk};
ghost use Rattle.round_net.specs.Rows.{instance_of_rows};
ghost use Rattle.what_if.specs.Costs.{IsOrderCost, AreCosts};

use cost_plan::plan;
use orders::{Order, ordered};
use round_net::{Net, cost};
use std::alloc::{AllocError, Global};

/// What all stays of a net wait for, by each order, in weighted rounds.
#[derive(Clone, Copy, PartialEq, Eq)]
pub struct Costs {
    /// If who came first goes first; none if one isn't sent in time then.
    pub first_come: Option<u64>,
    /// If the heaviest goes first, of equals who came first; none if one isn't sent in time then.
    pub by_weight: Option<u64>,
    /// In a best schedule, which knows what comes.
    pub best: u64,
}

/// What the waiting of the net costs by each order. It fails only if there is no memory.
pub fn costs_of(alloc: Global, net: &Net) -> Result<Costs, AllocError>
    ensures { IfOk result (AreCosts (instance_of_rows net.now)) }
{
    let first_come = order_cost(alloc, net, Order::FirstCome)?;
    let by_weight = order_cost(alloc, net, Order::ByWeight)?;
    let best = plan(alloc, net)?;
    let Some(least) = cost(net, &best.schedule) else {
        unreachable!()
    };
    Ok(Costs {
        first_come,
        by_weight,
        best: least,
    })
}

// What the waiting costs by an order as it comes; none if one isn't sent in time.
fn order_cost(alloc: Global, net: &Net, order: Order) -> Result<Option<u64>, AllocError>
    ensures { IfOk result (IsOrderCost order (instance_of_rows net.now)) }
{
    let made = ordered(alloc, net, order)?;
    if made.unsent > 0 || made.late > 0 {
        return Ok(None);
    }
    let Some(spent) = cost(net, &made.schedule) else {
        unreachable!()
    };
    Ok(Some(spent))
}
