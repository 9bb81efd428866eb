//! How many stays arrive and are sent in each round of each row.

ghost use Rattle.std.specs.Prelude.{◌≡◌, ℕ, ◌<◌, IfOk, length, slice_index};
ghost use Rattle.round_net.specs.Rows.{instance_of_rows, live_of_rows};
ghost use Rattle.round_net.specs.LoadLists.{AreLoads};

use crate::load_list::load_list;
use round_net::Net;
use std::alloc::{AllocError, Global};

/// How many of the stays that use each row arrive in each round.
pub(crate) fn arrived(alloc: Global, net: &Net) -> Result<Vec<u32>, AllocError>
    ensures { let n = instance_of_rows net.now in IfOk result (λ counts. AreLoads n n.arrival n.stays counts.items) }
{
    let _rounds = net.rounds();
    load_list(alloc, net, &arrivals(alloc, net)?)
}

/// How many of the stays that use each row were sent in each round.
pub(crate) fn sent(alloc: Global, net: &Net) -> Result<Vec<u32>, AllocError>
    ensures { let n = instance_of_rows net.now in IfOk result (λ counts. AreLoads n (live_of_rows net.now) n.stays counts.items) }
{
    let _rounds = net.rounds();
    load_list(alloc, net, &live_rounds(alloc, net)?)
}

// The round in which each stay arrived.
fn arrivals(alloc: Global, net: &Net) -> Result<Vec<u32>, AllocError>
    ensures size { IfOk result (λ rounds. length rounds.items ≡ (instance_of_rows net.now).stays) }
    ensures each { IfOk result (λ rounds. (s : ℕ) → s < (instance_of_rows net.now).stays → slice_index rounds.items s ≡ (instance_of_rows net.now).arrival s) }
{
    let mut rounds = Vec::with_capacity(alloc, net.stays() as usize)?;
    for stay in 0..net.stays() {
        rounds.push(net.arrival(stay))?;
    }
    Ok(rounds)
}

// The round in which each stay was sent.
fn live_rounds(alloc: Global, net: &Net) -> Result<Vec<u32>, AllocError>
    ensures size { IfOk result (λ rounds. length rounds.items ≡ (instance_of_rows net.now).stays) }
    ensures each { IfOk result (λ rounds. (s : ℕ) → s < (instance_of_rows net.now).stays → slice_index rounds.items s ≡ live_of_rows net.now s) }
{
    let mut rounds = Vec::with_capacity(alloc, net.stays() as usize)?;
    for stay in 0..net.stays() {
        rounds.push(net.live(stay))?;
    }
    Ok(rounds)
}
