//! The resources of a net as the units of a network: the devices, the adapters and the links.

ghost use Rattle.std.specs.Prelude.{◌<◌};
ghost use Rattle.cost_plan.specs.Words.{rows, instance_of_rows};

use round_net::Net;
use std::alloc::{AllocError, Global};

/// What a resource takes in each round.
pub(crate) fn caps_of(alloc: Global, net: &Net, resource: u32) -> Result<Vec<u32>, AllocError>
    requires { resource < rows (instance_of_rows net.now) }
{
    let mut caps = Vec::with_capacity(alloc, net.rounds() as usize)?;
    for round in 1..net.rounds() + 1 {
        caps.push(net.cap(resource, round))?;
    }
    Ok(caps)
}

/// The resource above a resource: a device's adapter, or an adapter's link.
pub(crate) fn above(net: &Net, resource: u32) -> Option<u32>
    requires { resource < rows (instance_of_rows net.now) }
{
    if resource < net.devices() {
        return Some(net.adapter_resource(net.adapter_of(resource)));
    }
    let adapter = resource - net.devices();
    if adapter < net.adapters() {
        let link = net.link_of(adapter)?;
        return Some(net.link_resource(link));
    }
    None
}
