//! The changes that are worth a try unless others are asked for.

ghost use Rattle.std.specs.Prelude.{◌≡◌, ◌<◌, ◌++◌, [], ◌∷◌, All, OnOk, IfOk};
ghost use Rattle.round_net.specs.Instance.{rows};
ghost use Rattle.round_net.specs.Rows.{instance_of_rows, live_of_rows};
ghost use Rattle.round_net.specs.LoadLists.{AreLoads};
ghost use Rattle.what_if.specs.Changes.{IsChangeOf};
ghost use Rattle.what_if.specs.Tries.{resource_at, tries_of, worth_trying};

use crate::change::{Change, Resource, Widening};
use crate::rounds::{arrived, sent};
use crate::waits::waits_of;
use round_net::Net;
use std::alloc::{AllocError, Global};

/// The changes that are worth a try unless others are asked for, of each device, adapter and link, in order. If one of its stays
/// waits in a round in which it took all that it takes, which may be nothing: one more, and twice as many. If one waits in a round in
/// which it takes nothing: never stopped. It fails only if there is no memory.
pub fn worth_trying(alloc: Global, net: &Net) -> Result<Vec<Change>, AllocError>
    ensures tries { IfOk result (λ tries. tries.items ≡ worth_trying net.now) }

    // Each is a change of the net.
    ensures kept { IfOk result (λ tries. All (IsChangeOf (instance_of_rows net.now)) tries.items) }
{
    let arrived = arrived(alloc, net)?;
    let sent = sent(alloc, net)?;
    let mut tries = Vec::new(alloc);
    for row in 0..net.rows() {
        push_tries(net, &arrived, &sent, row, &mut tries)?;
    }
    Ok(tries)
}

// Puts what is worth a try of the row's resource after the rest.
fn push_tries(
    net: &Net,
    arrived: &[u32],
    sent: &[u32],
    row: u32,
    tries: &mut Vec<Change>,
) -> Result<(), AllocError>
    requires row { row < rows (instance_of_rows net.now) }
    requires arrived { let n = instance_of_rows net.now in AreLoads n n.arrival n.stays arrived.now }
    requires sent { let n = instance_of_rows net.now in AreLoads n (live_of_rows net.now) n.stays sent.now }
    ensures { OnOk result (tries.new.items ≡ tries.old.items ++ tries_of (instance_of_rows net.now) (live_of_rows net.now) row) }
{
    let resource = resource_at(net, row);
    let waits = waits_of(net, arrived, sent, row);
    if waits.full {
        push(tries, resource, Widening::More(1))?;
        push(tries, resource, Widening::Times(2))?;
    }
    if waits.stopped {
        push(tries, resource, Widening::NeverStopped)?;
    }
    Ok(())
}

fn push(tries: &mut Vec<Change>, resource: Resource, widening: Widening) -> Result<(), AllocError>
    ensures { OnOk result (tries.new.items ≡ tries.old.items ++ record { resource = resource; widening = widening } ∷ []) }
{
    tries.push(Change { resource, widening })?;
    Ok(())
}

// The resource that has the row.
fn resource_at(net: &Net, row: u32) -> Resource
    requires { row < rows (instance_of_rows net.now) }
    ensures { result ≡ resource_at (instance_of_rows net.now) row }
{
    let devices = net.devices();
    let adapters = net.adapters();
    if row < devices {
        Resource::Device(row)
    } else if row < devices + adapters {
        Resource::Adapter(row - devices)
    } else {
        Resource::Link(row - (devices + adapters))
    }
}
