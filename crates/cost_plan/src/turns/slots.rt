//! A slot for each stay, by their rounds.

ghost use Rattle.std.specs.Prelude.{◌≡◌, ℕ, ◌<◌, length, map, slice_index, IfOk};
ghost use Rattle.cost_plan.specs.declared.turns.slots.Slot.{Slot};
ghost use Rattle.cost_plan.specs.Slots.{AreHeld, AreSlotsOf, IsSorting};

use std::alloc::{AllocError, Global};

/// A round, and the stay that holds it.
#[derive(Clone, Copy)]
pub struct Slot {
    pub round: u32,
    pub holder: usize,
}

/// The slots by their rounds, the stay that holds each, and the place of each stay among them.
#[derive(Drop)]
pub struct Slots {
    pub rounds: Vec<u32>,
    pub holders: Vec<usize>,
    pub places: Vec<usize>,
}

impl Slots {
    /// The slots of stays in these rounds.
    pub fn of(alloc: Global, rounds: &[u32]) -> Result<Slots, AllocError>
        ensures { IfOk result (λ slots. AreHeld rounds.now slots.rounds.items slots.holders.items slots.places.items) }
    {
        let slots = sorted_slots(alloc, rounds)?;
        let holders = holders_of(alloc, &slots)?;
        let rounds = rounds_of(alloc, &slots)?;
        let places = places_of(alloc, &holders)?;
        Ok(Slots {
            rounds,
            holders,
            places,
        })
    }
}

// A slot for each stay, by their rounds.
fn sorted_slots(alloc: Global, rounds: &[u32]) -> Result<Vec<Slot>, AllocError>
    ensures { IfOk result (λ slots. IsSorting rounds.now slots.items) }
{
    let mut slots = slots_of(alloc, rounds)?;
    slots.sort_unstable_by_key(|slot| slot.round);
    Ok(slots)
}

// The stays that hold the slots.
fn holders_of(alloc: Global, slots: &[Slot]) -> Result<Vec<usize>, AllocError>
    ensures { IfOk result (λ holders. holders.items ≡ map (λ (slot : Slot). slot.holder) slots.now) }
{
    slots.iter().map(|slot| slot.holder).collect(alloc)
}

// Their rounds.
fn rounds_of(alloc: Global, slots: &[Slot]) -> Result<Vec<u32>, AllocError>
    ensures { IfOk result (λ rounds. rounds.items ≡ map (λ (slot : Slot). slot.round) slots.now) }
{
    slots.iter().map(|slot| slot.round).collect(alloc)
}

// A slot for each stay, in their order.
fn slots_of(alloc: Global, rounds: &[u32]) -> Result<Vec<Slot>, AllocError>
    ensures { IfOk result (λ slots. AreSlotsOf rounds.now slots.items) }
{
    let mut slots = Vec::with_capacity(alloc, rounds.len())?;
    for (holder, round) in rounds.iter().enumerate() {
        slots.push(Slot {
            round: *round,
            holder,
        })?;
    }
    Ok(slots)
}

// For each stay a slot that it holds, if there is one.
fn places_of(alloc: Global, holders: &[usize]) -> Result<Vec<usize>, AllocError>
    requires { (slot : ℕ) → slot < length holders.now → slice_index holders.now slot < length holders.now }
    ensures long { IfOk result (λ places. length places.items ≡ length holders.now) }
    ensures within { IfOk result (λ places. (stay : ℕ) → stay < length holders.now → slice_index places.items stay < length holders.now) }
    ensures holds { IfOk result (λ places. (slot : ℕ) → slot < length holders.now → slice_index holders.now (slice_index places.items (slice_index holders.now slot)) ≡ slice_index holders.now slot) }
{
    let mut places = vec![in alloc; 0; holders.len()]?;
    for (slot, holder) in holders.iter().enumerate() {
        places[*holder] = slot;
    }
    Ok(places)
}
