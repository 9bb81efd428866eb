//! The cells of a net as the nodes of a graph, one for each resource and round, with one root above all. Proved: each node is the
//! one that the definitions name.

ghost use Rattle.std.specs.Prelude.{◌≡◌, ◌+◌, ◌<◌, ◌≤◌};
ghost use Rattle.cost_plan.specs.Words.{rows, instance_of_rows, live_of_rows, IsSound};
ghost use Rattle.cost_plan.specs.Cells.{cell, adapter_above, resource_above, node_of, node_count, max_nodes};

use round_net::Net;

/// The node of a resource and a round; the root is that of the resource past all resources and round 0.
pub fn node(net: &Net, resource: u32, round: u32) -> u32
    requires resource { resource ≤ rows (instance_of_rows net.now) }
    requires round { round ≤ (instance_of_rows net.now).rounds }
    ensures same { result ≡ cell (instance_of_rows net.now) resource round }
    ensures small { result ≤ max_nodes }
    ensures sound { IsSound (instance_of_rows net.now) (live_of_rows net.now) }
{
    resource * (net.rounds() + 1) + round
}

/// The resource above: a device's is its adapter's, that of an adapter on a link is the link's, and any other's is the root's, past
/// all resources.
pub fn resource_above(net: &Net, resource: u32) -> u32
    requires { resource < rows (instance_of_rows net.now) }
    ensures same { result ≡ resource_above (instance_of_rows net.now) resource }
    ensures within { result ≤ rows (instance_of_rows net.now) }
    ensures sound { IsSound (instance_of_rows net.now) (live_of_rows net.now) }
{
    let devices = net.devices();
    if resource < devices {
        net.adapter_resource(net.adapter_of(resource))
    } else if resource - devices < net.adapters() {
        adapter_above(net, resource - devices)
    } else {
        net.rows()
    }
}

// The resource above an adapter's.
fn adapter_above(net: &Net, adapter: u32) -> u32
    requires { adapter < (instance_of_rows net.now).adapters }
    ensures same { result ≡ adapter_above (instance_of_rows net.now) adapter }
    ensures within { result ≤ rows (instance_of_rows net.now) }
    ensures sound { IsSound (instance_of_rows net.now) (live_of_rows net.now) }
{
    let root = net.rows();
    match net.link_of(adapter) {
        Some(link) => net.link_resource(link),
        None => root,
    }
}

/// The node above a cell by the resource above: that resource's in the same round, or the root.
pub fn node_above(net: &Net, up: u32, round: u32) -> u32
    requires up { up ≤ rows (instance_of_rows net.now) }
    requires round { round ≤ (instance_of_rows net.now).rounds }
    ensures same { result ≡ node_of (instance_of_rows net.now) up round }
    ensures sound { IsSound (instance_of_rows net.now) (live_of_rows net.now) }
{
    if up < net.rows() {
        node(net, up, round)
    } else {
        node(net, net.rows(), 0)
    }
}

/// How many nodes there are: the cells and the root.
pub fn nodes(net: &Net) -> u32
    ensures same { result ≡ node_count (instance_of_rows net.now) }
    ensures small { result ≤ max_nodes }
    ensures sound { IsSound (instance_of_rows net.now) (live_of_rows net.now) }
{
    net.rows() * (net.rounds() + 1) + 1
}
