//! Lists of changes of a net, each of which is made to the net alone.

ghost use Rattle.std.specs.Prelude.{◌≡◌, true, All, IfOk};
ghost use Rattle.round_net.specs.Rows.{instance_of_rows};
ghost use Rattle.what_if.specs.Changes.{IsChangeOf, is_change, changes_in};
ghost use Rattle.what_if.specs.Costs.{AreChanges, changes_of_each, lists_in};

use crate::change::{Change, Resource, Widening};
use round_net::{MAX_CAP, Net};
use std::alloc::{AllocError, Global};

/// No change at first, and then the wanted lists in their order, each with exactly those of its changes that are changes of the net, in
/// their order. It fails only if there is no memory.
pub fn lists_of_net(
    alloc: Global,
    net: &Net,
    wanted: &[Vec<Change>],
) -> Result<Vec<Vec<Change>>, AllocError>
    ensures lists { IfOk result (λ lists. changes_of_each lists.items ≡ lists_in (instance_of_rows net.now) wanted.now) }

    // So each can be made to the net.
    ensures changes { IfOk result (λ lists. AreChanges (instance_of_rows net.now) lists.items) }
{
    let mut lists = Vec::with_capacity(alloc, wanted.len() + 1)?;
    lists.push(Vec::new(alloc))?;
    for list in wanted {
        lists.push(changes_of_net(alloc, net, list)?)?;
    }
    Ok(lists)
}

// The changes of the list that are changes of the net.
fn changes_of_net(alloc: Global, net: &Net, wanted: &[Change]) -> Result<Vec<Change>, AllocError>
    ensures list { IfOk result (λ list. list.items ≡ changes_in (instance_of_rows net.now) wanted.now) }
    ensures changes { IfOk result (λ list. All (IsChangeOf (instance_of_rows net.now)) list.items) }
{
    let mut list = Vec::new(alloc);
    for change in wanted {
        if is_change_of(net, *change) {
            list.push(*change)?;
        }
    }
    Ok(list)
}

/// Whether the net has the resource, and the change may have its number.
pub fn is_change_of(net: &Net, change: Change) -> bool
    ensures test { result ≡ is_change (instance_of_rows net.now) change }

    // It is true of exactly the changes that can be made to the net.
    ensures only { result ≡ true → IsChangeOf (instance_of_rows net.now) change }
    ensures all { IsChangeOf (instance_of_rows net.now) change → result ≡ true }
{
    let has_resource = match change.resource {
        Resource::Device(device) => device < net.devices(),
        Resource::Adapter(adapter) => adapter < net.adapters(),
        Resource::Link(link) => link < net.links(),
    };
    has_resource
        && match change.widening {
            Widening::More(number) | Widening::Times(number) | Widening::AtLeast(number) => {
                1 <= number && number <= MAX_CAP
            }
            Widening::NeverStopped => true,
        }
}
