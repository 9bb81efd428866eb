//! A part of a plan: it is all adapters of one link, or one adapter that is on none. Stays of different parts share no cap.
//! Proved: once a part is put in, its stays have its rounds and the cells of its resources its potentials, in order, and all others keep
//! theirs.

ghost use Rattle.std.specs.Prelude.{◌≡◌, ℕ, ◌+◌, ◌*◌, ◌<◌, ◌≤◌, length, drop, slice_index, IfOk};
ghost use Rattle.std.specs.Option.{IfSome};
ghost use Rattle.cost_plan.specs.Words.{rows, instance_of_rows};
ghost use Rattle.cost_plan.specs.Cells.{node_count};
ghost use Rattle.cost_plan.specs.Parts.{before, resources_before, IsPutIn, ResourceHasPotentials, HasPotentials};

use crate::cells::node;
use crate::part_name::{part_of_resource, part_of_stay};
use crate::problem::problem_of_part;
use round_net::Net;
use shortest_paths::{Guess, guess};
use std::alloc::{AllocError, Global};

/// A guess at a best plan of a part's stays.
#[derive(Drop)]
pub struct Part {
    /// The least of its adapters, by which it goes.
    pub adapter: u32,
    /// A round for each of its stays, and a potential for each cell of its resources, in order.
    pub guess: Guess,
}

/// A guess at a best plan of the part of this least adapter, if there is one.
pub fn guess_part(alloc: Global, net: &Net, adapter: u32) -> Result<Option<Part>, AllocError>
    ensures own { IfOk result (λ found. IfSome found (λ part. part.adapter ≡ adapter)) }
    ensures rounds { let net = instance_of_rows net.now in IfOk result (λ found. IfSome found (λ part. length part.guess.rounds.items ≡ before net adapter net.stays)) }
    ensures potentials { let net = instance_of_rows net.now in IfOk result (λ found. IfSome found (λ part. length part.guess.potentials.items ≡ resources_before net adapter (rows net) * (net.rounds + 1) + 1)) }
{
    let problem = problem_of_part(alloc, net, adapter)?;
    Ok(guess(alloc, &problem)?.map(|guess| Part { adapter, guess }))
}

/// Gives the stays of a part their rounds, in order.
pub fn put_rounds(net: &Net, rounds: &mut [u32], part: &Part)
    requires { length rounds.old ≡ (instance_of_rows net.now).stays }
    ensures size { length rounds.new ≡ length rounds.old }
    ensures put { let net = instance_of_rows net.now in IsPutIn net part.now.adapter net.stays part.now.guess.rounds.items rounds.old rounds.new }
{
    let mut next = 0usize;
    for stay in 0..net.stays() {
        if part_of_stay(net, stay) == part.adapter {
            put_round(rounds, stay, &part.guess.rounds, next);
            next += 1;
        }
    }
}

// Gives a stay a round of a part, if there is that one.
fn put_round(rounds: &mut [u32], stay: u32, part: &[u32], place: usize)
    requires { stay < length rounds.old }
    ensures size { length rounds.new ≡ length rounds.old }
    ensures own { place < length part.now → slice_index rounds.new stay ≡ slice_index part.now place }
    ensures none { length part.now ≤ place → slice_index rounds.new stay ≡ slice_index rounds.old stay }
    ensures others { (s : ℕ) → (s ≡ stay → ⊥) → slice_index rounds.new s ≡ slice_index rounds.old s }
{
    if let Some(round) = part.get(place) {
        rounds[stay as usize] = *round;
    }
}

/// Gives the cells of a part's resources their potentials.
pub fn put_potentials(net: &Net, potentials: &mut [u64], part: &Part)
    requires { length potentials.old ≡ node_count (instance_of_rows net.now) }
    ensures size { length potentials.new ≡ length potentials.old }
    ensures put { let net = instance_of_rows net.now in HasPotentials net part.now.adapter (rows net) part.now.guess.potentials.items potentials.old potentials.new }
{
    let mut rest: &[u64] = &part.guess.potentials;
    for resource in 0..net.rows() {
        if part_of_resource(net, resource) == part.adapter {
            put_resource(net, potentials, resource, rest);
            rest = behind_resource(net, rest);
        }
    }
}

// The potentials after those of a resource.
fn behind_resource<'a>(net: &Net, potentials: &'a [u64]) -> &'a [u64]
    ensures { result.now ≡ drop ((instance_of_rows net.now).rounds + 1) potentials.now }
{
    let width = net.rounds() as usize + 1;
    if width <= potentials.len() {
        &potentials[width..]
    } else {
        &[]
    }
}

// Gives the cells of a resource their potentials, with which the others begin.
fn put_resource(net: &Net, potentials: &mut [u64], resource: u32, from: &[u64])
    requires resource { resource < rows (instance_of_rows net.now) }
    requires size { length potentials.old ≡ node_count (instance_of_rows net.now) }
    ensures size { length potentials.new ≡ length potentials.old }
    ensures put { let net = instance_of_rows net.now in ResourceHasPotentials net resource (net.rounds + 1) from.now potentials.old potentials.new }
{
    for round in 0..net.rounds() + 1 {
        let cell = node(net, resource, round) as usize;
        if let Some(potential) = from.get(round as usize) {
            potentials[cell] = *potential;
        }
    }
}
