//! The times at which the levels with a gap may change.

ghost use Rattle.std.specs.Prelude.{◌≡◌, ◌-◌, ◌<◌, ◌≤◌, ◌^◌, ◌++◌, ℕ, All, IfOk, length, map};
ghost use Rattle.std.specs.List.Sorted.{IsPermutation, IsNonDecreasing};
ghost use Rattle.slots.specs.Bounds.{AreBounds};
ghost use Rattle.slots.specs.Changes.{Change, AreChanges, IsReady, changes_in, lowest_idle};
ghost use Rattle.slots.specs.Flights.{spans_held};
ghost use Rattle.slots.specs.Gaps.{Wait, span_waited};

use crate::bounds::{Bounds, Passed, bounds_of};
use crate::flight::{Flight, Wait};
use crate::service::total_of;
use crate::spans::{spans_held, spans_waited};
use crate::times::sorted;
use std::alloc::{AllocError, Global};

/// The lowest level that has a gap from a time on, until the next change. All higher ones have one too.
#[derive(Clone, Copy)]
pub struct Change {
    pub at: u64,
    pub lowest: usize,
}

/// The times at which flights take their slots and leave them, those at which requests begin to wait and are started, and all of
/// these in their order: at each there is a change.
#[derive(Drop)]
pub struct Changes {
    pub held: Bounds,
    pub waited: Bounds,
    pub times: Vec<u64>,
}

/// The changes of a device, with however many slots. It fails only if there is no memory.
pub fn changes_of(alloc: Global, flights: &[Flight], waits: &[Wait]) -> Result<Changes, AllocError>
    requires few { length flights.now < 2 ^ 32 }
    ensures ready { IfOk result (λ changes. IsReady changes) }
    ensures changes { (slots : ℕ) → IfOk result (λ changes. AreChanges flights.now waits.now slots (changes_in changes slots)) }
{
    let held = bounds_held(alloc, flights)?;
    let waited = bounds_waited(alloc, waits)?;
    let times = times_of(
        alloc,
        &held.begins,
        &held.ends,
        &waited.begins,
        &waited.ends,
    )?;
    Ok(Changes {
        held,
        waited,
        times,
    })
}

// The times at which flights take their slots and leave them.
fn bounds_held(alloc: Global, flights: &[Flight]) -> Result<Bounds, AllocError>
    requires few { length flights.now < 2 ^ 32 }
    ensures { IfOk result (λ held. AreBounds (spans_held flights.now) held.begins.items held.ends.items) }
{
    let usual = total_of(flights).mean();
    let spans = spans_held(alloc, usual, flights)?;
    bounds_of(alloc, &spans)
}

// The times at which requests begin to wait and are started.
fn bounds_waited(alloc: Global, waits: &[Wait]) -> Result<Bounds, AllocError>
    ensures bounds { IfOk result (λ waited. AreBounds (map span_waited waits.now) waited.begins.items waited.ends.items) }
    ensures fits { IfOk result (λ _. All (λ (w : Wait). w.start < 2 ^ 64) waits.now) }
{
    let spans = spans_waited(alloc, waits)?;
    let bounds = bounds_of(alloc, &spans)?;
    Ok(bounds)
}

// All these times, in their order.
fn times_of(
    alloc: Global,
    starts: &[u64],
    ends: &[u64],
    arrivals: &[u64],
    leaves: &[u64],
) -> Result<Vec<u64>, AllocError>
    ensures all { IfOk result (λ times. IsPermutation (((starts.now ++ ends.now) ++ arrivals.now) ++ leaves.now) times.items) }
    ensures order { IfOk result (λ times. IsNonDecreasing times.items) }
    ensures fits { IfOk result (λ times. All (λ t. t < 2 ^ 64) times.items) }
{
    let mut times = Vec::new(alloc);
    times.extend_from_slice(starts)?;
    times.extend_from_slice(ends)?;
    times.extend_from_slice(arrivals)?;
    times.extend_from_slice(leaves)?;
    Ok(sorted(times))
}

/// The change at a time, by how many have begun to fly and to wait by then, and how many have ended.
pub fn change_at(at: u64, flying: Passed, waiting: Passed, slots: u32) -> Change
    requires few { flying.begins < 2 ^ 32 }
    requires flying { flying.ends ≤ flying.begins }
    requires waiting { waiting.ends ≤ waiting.begins }
    ensures { result ≡ record { at = at; lowest = lowest_idle (flying.begins - flying.ends) (waiting.begins - waiting.ends) slots } }
{
    Change {
        at,
        lowest: lowest_idle(flying.covering(), waiting.covering(), slots),
    }
}

// The lowest level that has a gap if that many fly and wait, and the one above all slots if none has.
fn lowest_idle(flying: usize, waiting: usize, slots: u32) -> usize
    requires { flying < 2 ^ 32 }
    ensures { result ≡ lowest_idle flying waiting slots }
{
    let none = slots as usize + 1;
    if waiting > 0 {
        none.min(flying + 1)
    } else {
        none
    }
}
