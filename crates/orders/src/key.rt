//! Sort keys of stays: those that go first have the least.

ghost use Rattle.std.specs.Prelude.{◌≡◌, ◌<◌, map, IfOk};
ghost use Rattle.round_net.specs.Rows.{instance_of_rows, live_of_rows};
ghost use Rattle.round_net.specs.Sound.{IsSound};
ghost use Rattle.orders.specs.Keys.{key_of, all_keys, AreInOrder};
ghost use Rattle.orders.specs.declared.key.Key.{Key};

use crate::order::Order;
use round_net::Net;
use std::alloc::{AllocError, Global};

/// What a stay is sorted by: the lesser goes first.
#[derive(Clone, Copy, PartialEq, Eq, PartialOrd, Ord)]
pub struct Key {
    /// The less, the greater the weight; 0 in an order that doesn't go by weight.
    pub lightness: u32,
    pub arrival: u32,
    pub stay: u32,
}

/// The numbers of all stays, of two the one first that goes before the other.
pub fn in_order(alloc: Global, net: &Net, order: Order) -> Result<Vec<u32>, AllocError>
    ensures { IfOk result (λ stays. AreInOrder order (instance_of_rows net.now) stays.items) }
{
    let mut keys = keys_of(alloc, net, order)?;
    keys.sort_unstable();
    let stays = stays_of(alloc, &keys)?;
    Ok(stays)
}

// The keys of all stays, by their numbers.
fn keys_of(alloc: Global, net: &Net, order: Order) -> Result<Vec<Key>, AllocError>
    ensures keys { IfOk result (λ keys. keys.items ≡ all_keys order (instance_of_rows net.now)) }
    ensures sound { IsSound (instance_of_rows net.now) (live_of_rows net.now) }
{
    let mut keys = Vec::with_capacity(alloc, net.stays() as usize)?;
    for stay in 0..net.stays() {
        keys.push(key_of(net, order, stay))?;
    }
    Ok(keys)
}

// The key of a stay.
fn key_of(net: &Net, order: Order, stay: u32) -> Key
    requires { stay < (instance_of_rows net.now).stays }
    ensures { result ≡ key_of order (instance_of_rows net.now) stay }
{
    Key {
        lightness: match order {
            Order::FirstCome => 0,
            Order::ByWeight => u32::MAX - net.weight(stay),
        },
        arrival: net.arrival(stay),
        stay,
    }
}

// The stays of these keys.
fn stays_of(alloc: Global, keys: &[Key]) -> Result<Vec<u32>, AllocError>
    ensures { IfOk result (λ stays. stays.items ≡ map (λ (key : Key). key.stay) keys.now) }
{
    keys.iter().map(|key| key.stay).collect(alloc)
}
