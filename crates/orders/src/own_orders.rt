//! The stays of each device, in the order by weight.

ghost use Rattle.std.specs.Prelude.{IfOk};
ghost use Rattle.round_net.specs.Rows.{instance_of_rows};
ghost use Rattle.orders.specs.Keys.{AreInOrder};
ghost use Rattle.orders.specs.OwnOrders.{AreOwnOrders, AreNone};

use crate::order::Order;
use round_net::Net;
use std::alloc::{AllocError, Global};

/// The stays of each device, in the order of all. It fails only if there is no memory.
pub(crate) fn own_orders(
    alloc: Global,
    net: &Net,
    order: &[u32],
) -> Result<Vec<Vec<u32>>, AllocError>
    requires { AreInOrder Order.ByWeight (instance_of_rows net.now) order.now }
    ensures { IfOk result (λ lists. AreOwnOrders (instance_of_rows net.now) lists.items) }
{
    let mut lists = no_stays(alloc, net.devices())?;
    for stay in order {
        lists[net.device(*stay) as usize].push(*stay)?;
    }
    Ok(lists)
}

// No stays of so many devices.
fn no_stays(alloc: Global, devices: u32) -> Result<Vec<Vec<u32>>, AllocError>
    ensures { IfOk result (λ lists. AreNone devices lists.items) }
{
    let mut lists = Vec::with_capacity(alloc, devices as usize)?;
    for _device in 0..devices {
        lists.push(Vec::new(alloc))?;
    }
    Ok(lists)
}
