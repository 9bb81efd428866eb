//! The order in which stays take their turns.

ghost use Rattle.std.specs.Prelude.{◌≡◌, ◌<◌, map, IfOk};
ghost use Rattle.cost_plan.specs.Words.{instance_of_rows, live_of_rows};
ghost use Rattle.cost_plan.specs.declared.turn_order.Turn.{Turn};
ghost use Rattle.cost_plan.specs.TurnOrder.{turn_of, all_turns, IsTurnOrder};

use round_net::Net;
use std::alloc::{AllocError, Global};

/// When a stay takes its turn: the lesser comes first.
#[derive(Clone, Copy, PartialEq, Eq, PartialOrd, Ord)]
pub struct Turn {
    pub device: u32,
    pub weight: u32,
    pub live: u32,
    pub stay: u32,
}

/// The stays of a net by device, by weight, by the live round, and by their numbers.
pub fn turn_order(alloc: Global, net: &Net) -> Result<Vec<u32>, AllocError>
    ensures { IfOk result (λ order. IsTurnOrder (instance_of_rows net.now) (live_of_rows net.now) order.items) }
{
    let mut turns = turns_of(alloc, net)?;
    turns.sort_unstable();
    let order = stays_of(alloc, &turns)?;
    Ok(order)
}

// The turns of all stays, in the order of their numbers.
fn turns_of(alloc: Global, net: &Net) -> Result<Vec<Turn>, AllocError>
    ensures { IfOk result (λ turns. turns.items ≡ all_turns (instance_of_rows net.now) (live_of_rows net.now)) }
{
    let mut turns = Vec::with_capacity(alloc, net.stays() as usize)?;
    for stay in 0..net.stays() {
        turns.push(turn_at(net, stay))?;
    }
    Ok(turns)
}

// The turn of a stay.
fn turn_at(net: &Net, stay: u32) -> Turn
    requires { stay < (instance_of_rows net.now).stays }
    ensures { result ≡ turn_of (instance_of_rows net.now) (live_of_rows net.now) stay }
{
    Turn {
        device: net.device(stay),
        weight: net.weight(stay),
        live: net.live(stay),
        stay,
    }
}

// The stays that take these turns.
fn stays_of(alloc: Global, turns: &[Turn]) -> Result<Vec<u32>, AllocError>
    ensures { IfOk result (λ stays. stays.items ≡ map (λ (turn : Turn). turn.stay) turns.now) }
{
    turns.iter().map(|turn| turn.stay).collect(alloc)
}
