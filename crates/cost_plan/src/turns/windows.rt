//! Rounds in turn for stays with windows.

ghost use Rattle.std.specs.Prelude.{◌≡◌, ℕ, ◌<◌, ◌≤◌, true, false, length, slice_index, IfOk};
ghost use Rattle.std.specs.List.Sorted.{IsPermutation};
ghost use Rattle.cost_plan.specs.Turns.{HaveWindows, AreInTurnWithin, AreSpared};

use crate::turns::exchange::{FEW_STAYS, exchange};
use crate::turns::giving::in_turn;
use std::alloc::{AllocError, Global};

/// The same rounds within the windows of these stays, which stand in the order of their turns, so that none has a round past
/// that of a later one if each could have the other's. Rounds that rise are left as they are. If all windows reach the end, it
/// takes little more time than to sort the rounds. If one doesn't, pairs change rounds; the rounds of more than 4,096 such stays
/// are left as they are.
pub fn in_turn_within(
    alloc: Global,
    arrivals: &[u32],
    lasts: &[u32],
    end: u32,
    rounds: &[u32],
) -> Result<Vec<u32>, AllocError>
    requires long { length arrivals.now ≡ length rounds.now }
    requires lasts { length arrivals.now ≡ length lasts.now }
    requires windows { HaveWindows arrivals.now lasts.now rounds.now }
    requires end { (i : ℕ) → i < length lasts.now → slice_index lasts.now i ≤ end }
    ensures permutation { IfOk result (λ answer. IsPermutation rounds.now answer.items) }
    ensures windows { IfOk result (λ answer. HaveWindows arrivals.now lasts.now answer.items) }
    ensures in_turn { IfOk result (λ answer. ¬ AreSpared end lasts.now → AreInTurnWithin arrivals.now lasts.now answer.items) }
{
    if are_rising(rounds) {
        let answer = rounds.to_vec(alloc)?;
        return Ok(answer);
    }
    if all_reach(lasts, end) {
        let answer = in_turn(alloc, arrivals, rounds)?;
        return Ok(answer);
    }
    let mut answer = rounds.to_vec(alloc)?;
    if rounds.len() <= FEW_STAYS {
        exchange(arrivals, lasts, &mut answer);
    }
    Ok(answer)
}

// Whether no round is past a later one.
fn are_rising(rounds: &[u32]) -> bool
    ensures { result ≡ true → (i j : ℕ) → i < j → j < length rounds.now → slice_index rounds.now i ≤ slice_index rounds.now j }
{
    for place in 1..rounds.len() {
        if rounds[place] < rounds[place - 1] {
            return false;
        }
    }
    true
}

// Whether all windows reach the end.
fn all_reach(lasts: &[u32], end: u32) -> bool
    requires { (i : ℕ) → i < length lasts.now → slice_index lasts.now i ≤ end }
    ensures yes { result ≡ true → (i : ℕ) → i < length lasts.now → slice_index lasts.now i ≡ end }
    ensures no { result ≡ false → (i : ℕ) × (i < length lasts.now) × (slice_index lasts.now i < end) }
{
    for last in lasts {
        if *last < end {
            return false;
        }
    }
    true
}
