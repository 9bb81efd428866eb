//! First fit: in the order of their turns each stay gets the first free round that isn't before its arrival.

ghost use Rattle.std.specs.Prelude.{◌≡◌, ℕ, ◌+◌, ◌<◌, ◌≤◌, length, slice_index, IfOk};
ghost use Rattle.std.specs.List.Sorted.{IsPermutation};
ghost use Rattle.cost_plan.specs.Turns.{HaveSameRounds, HaveArrived, AreInTurn};
ghost use Rattle.cost_plan.specs.Slots.{AreHeld, IsFree, AreGiven};

use crate::turns::free_slot::free_slot;
use crate::turns::slots::Slots;
use std::alloc::{AllocError, Global};

/// The same rounds, so that none of these stays, which stand in the order of their turns, has a round past that of a later
/// one if it had arrived by that. It takes little more time than to sort the rounds.
pub fn in_turn(alloc: Global, arrivals: &[u32], rounds: &[u32]) -> Result<Vec<u32>, AllocError>
    requires long { length arrivals.now ≡ length rounds.now }
    requires arrived { HaveArrived arrivals.now rounds.now }
    ensures permutation { IfOk result (λ answer. IsPermutation rounds.now answer.items) }
    ensures same { IfOk result (λ answer. HaveSameRounds rounds.now answer.items) }
    ensures arrived { IfOk result (λ answer. HaveArrived arrivals.now answer.items) }
    ensures in_turn { IfOk result (λ answer. AreInTurn arrivals.now answer.items) }
{
    let mut slots = Slots::of(alloc, rounds)?;
    let mut next = following(alloc, rounds.len())?;
    let mut answer = rounds.to_vec(alloc)?;
    for (turn, arrival) in arrivals.iter().enumerate() {
        let from = first_slot(&slots.rounds, *arrival);
        let slot = free_slot(&slots.holders, turn, &mut next, from);
        let other = slots.holders[slot];
        let own = slots.places[turn];
        answer.swap(turn, other);
        slots.holders.swap(slot, own);
        slots.places.swap(turn, other);
    }
    Ok(answer)
}

// The first slot of a round not before this one, and how many slots there are if there is none.
fn first_slot(rounds: &[u32], arrival: u32) -> usize
    requires { (x y : ℕ) → x ≤ y → y < length rounds.now → slice_index rounds.now x ≤ slice_index rounds.now y }
    ensures before { (slot : ℕ) → slot < result → slice_index rounds.now slot < arrival }
    ensures rest { (slot : ℕ) → result ≤ slot → slot < length rounds.now → arrival ≤ slice_index rounds.now slot }
{
    rounds.partition_point(|round| *round < arrival)
}

// The slot after each slot.
fn following(alloc: Global, slots: usize) -> Result<Vec<usize>, AllocError>
    ensures long { IfOk result (λ next. length next.items ≡ slots) }
    ensures next { IfOk result (λ next. (slot : ℕ) → slot < slots → slice_index next.items slot ≡ slot + 1) }
{
    let mut next = Vec::with_capacity(alloc, slots)?;
    for slot in 0..slots {
        next.push(slot + 1)?;
    }
    Ok(next)
}
