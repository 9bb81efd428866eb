//! Who waits first at a device after each round: stays take rounds in the order by weight, and pass over taken ones (union and
//! find).

ghost use Rattle.std.specs.Prelude.{◌≡◌, ℕ, ◌+◌, ◌<◌, ◌≤◌, length, slice_index, IfOk};
ghost use Rattle.round_net.specs.Rows.{instance_of_rows, live_of_rows};
ghost use Rattle.round_net.specs.Sound.{IsSound};
ghost use Rattle.orders.specs.FirstWaiting.{AreFirsts, Skips, Takes};
ghost use Rattle.orders.specs.OwnOrders.{IsOwnOrder};

use round_net::{Net, Schedule};
use std::alloc::{AllocError, Global};

/// For each round from 0 on, who of the stays that wait at the device after it goes before the others by weight; nobody if none
/// waits. `own` are the device's stays, in that order.
pub(crate) fn first_waiting(
    alloc: Global,
    net: &Net,
    schedule: &Schedule,
    own: &[u32],
    device: u32,
) -> Result<Vec<Option<u32>>, AllocError>
    requires own { IsOwnOrder (instance_of_rows net.now) device own.now }
    requires size { length schedule.now ≡ (instance_of_rows net.now).stays }
    requires sent { (s : ℕ) → s < (instance_of_rows net.now).stays → slice_index schedule.now s ≤ (instance_of_rows net.now).rounds }
    ensures long { IfOk result (λ firsts. length firsts.items ≡ (instance_of_rows net.now).rounds + 1) }
    ensures each { IfOk result (λ firsts. AreFirsts (instance_of_rows net.now) (slice_index schedule.now) device firsts.items) }
{
    let places = net.rounds() as usize + 1;
    let mut firsts = vec![in alloc; None; places]?;
    let mut next = each_itself(alloc, places)?;
    for stay in own {
        let (from, to) = (net.arrival(*stay), schedule.round(*stay));
        take(&mut firsts, &mut next, from, to, *stay);
    }
    Ok(firsts)
}

// As many numbers from 0 on.
fn each_itself(alloc: Global, places: usize) -> Result<Vec<u32>, AllocError>
    requires { places ≤ 65536 }
    ensures long { IfOk result (λ next. length next.items ≡ places) }
    ensures each { IfOk result (λ next. (r : ℕ) → r < places → slice_index next.items r ≡ r) }
{
    let mut next = Vec::with_capacity(alloc, places)?;
    for place in 0..places {
        next.push(place as u32)?;
    }
    Ok(next)
}

// Gives the stay each free round from one on and before another.
fn take(firsts: &mut Vec<Option<u32>>, next: &mut Vec<u32>, from: u32, to: u32, stay: u32)
    requires within { to < length firsts.old.items }
    requires skips { Skips firsts.old.items next.old.items }
    ensures skips { Skips firsts.new.items next.new.items }
    ensures takes { Takes firsts.old.items firsts.new.items from to stay }
{
    let mut round = from;
    while round < to {
        let after = next[round as usize];
        if after > round {
            next[round as usize] = next[after as usize];
            round = after;
        } else {
            firsts[round as usize] = Some(stay);
            next[round as usize] = round + 1;
            round += 1;
        }
    }
}
