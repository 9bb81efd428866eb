//! Stays of one device and one weight take their turns.

ghost use Rattle.std.specs.Prelude.{◌≡◌, ◌≢◌, ℕ, ◌<◌, ◌≤◌, length, map, slice_index, IfOk};
ghost use Rattle.std.specs.Result.{OnOk};
ghost use Rattle.cost_plan.specs.Words.{instance_of_rows, live_of_rows, IsSound, IsAdmissible};
ghost use Rattle.cost_plan.specs.TurnOrder.{IsKind, IsKindTurned};

use crate::turns::in_turn_within;
use round_net::Net;
use std::alloc::{AllocError, Global};

/// Gives the rounds of these stays, which stand in the order of their turns, to them in turn.
pub fn turn_kind(
    alloc: Global,
    net: &Net,
    members: &[u32],
    rounds: &mut Vec<u32>,
) -> Result<(), AllocError>
    requires kind { IsKind (instance_of_rows net.now) members.now }
    requires long { length rounds.old.items ≡ (instance_of_rows net.now).stays }
    requires admissible { IsAdmissible (instance_of_rows net.now) (slice_index rounds.old.items) }
    ensures { OnOk result (IsKindTurned (instance_of_rows net.now) members.now rounds.old.items rounds.new.items) }
{
    let arrivals = arrivals_of(alloc, net, members)?;
    let lasts = lasts_of(alloc, net, members)?;
    let own = rounds_of(alloc, rounds, members)?;
    let answer = in_turn_within(alloc, &arrivals, &lasts, net.rounds(), &own)?;
    put_back(members, &answer, rounds);
    Ok(())
}

// When these stays arrived.
fn arrivals_of(alloc: Global, net: &Net, members: &[u32]) -> Result<Vec<u32>, AllocError>
    requires { (k : ℕ) → k < length members.now → slice_index members.now k < (instance_of_rows net.now).stays }
    ensures { IfOk result (λ arrivals. arrivals.items ≡ map (instance_of_rows net.now).arrival members.now) }
{
    let mut arrivals = Vec::with_capacity(alloc, members.len())?;
    for stay in members {
        arrivals.push(net.arrival(*stay))?;
    }
    Ok(arrivals)
}

// The last rounds in which they could be sent.
fn lasts_of(alloc: Global, net: &Net, members: &[u32]) -> Result<Vec<u32>, AllocError>
    requires { (k : ℕ) → k < length members.now → slice_index members.now k < (instance_of_rows net.now).stays }
    ensures { IfOk result (λ lasts. lasts.items ≡ map (instance_of_rows net.now).last members.now) }
{
    let mut lasts = Vec::with_capacity(alloc, members.len())?;
    for stay in members {
        lasts.push(net.last(*stay))?;
    }
    Ok(lasts)
}

// Their rounds.
fn rounds_of(alloc: Global, rounds: &[u32], members: &[u32]) -> Result<Vec<u32>, AllocError>
    requires { (k : ℕ) → k < length members.now → slice_index members.now k < length rounds.now }
    ensures { IfOk result (λ own. own.items ≡ map (slice_index rounds.now) members.now) }
{
    let mut own = Vec::with_capacity(alloc, members.len())?;
    for stay in members {
        own.push(rounds[*stay as usize])?;
    }
    Ok(own)
}

// Gives each of them the round at its place.
fn put_back(members: &[u32], answer: &[u32], rounds: &mut Vec<u32>)
    requires long { length answer.now ≡ length members.now }
    requires within { (k : ℕ) → k < length members.now → slice_index members.now k < length rounds.old.items }
    requires once { (i j : ℕ) → i < length members.now → j < length members.now → slice_index members.now i ≡ slice_index members.now j → i ≡ j }
    ensures long { length rounds.new.items ≡ length rounds.old.items }
    ensures own { (k : ℕ) → k < length members.now → slice_index rounds.new.items (slice_index members.now k) ≡ slice_index answer.now k }
    ensures others { (s : ℕ) → ((k : ℕ) → k < length members.now → slice_index members.now k ≢ s) → slice_index rounds.new.items s ≡ slice_index rounds.old.items s }
{
    for (place, stay) in members.iter().enumerate() {
        rounds[*stay as usize] = answer[place];
    }
}
