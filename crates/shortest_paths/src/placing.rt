//! Successive shortest paths (Edmonds and Karp 1972; Tomizawa 1971): places stays one after another, each on a shortest path to
//! the root of the residual network, so that all stays placed so far together cost least.

use crate::network::Network;
use crate::problem::{Problem, Stay};
use crate::search::Search;
use crate::stop::Stop;
use std::alloc::Global;
use std::cmp::Reverse;

/// The greatest length of a path that is searched where no room is left.
const FAR: u32 = 500_000_000;

// A stay in the order in which stays are placed.
#[derive(Clone, Copy)]
struct Turn {
    weight: u32,
    arrival: u32,
    // The number of the stay.
    stay: u32,
}

// The stays in order: heavy ones first, and of equal ones those that arrive late.
fn turns(alloc: Global, problem: &Problem) -> Result<Vec<Turn>, Stop> {
    let mut turns = Vec::with_capacity(alloc, problem.stays.len())?;
    let mut number = 0u32;
    for stay in problem.stays.iter() {
        turns.push(Turn {
            weight: stay.weight,
            arrival: stay.arrival,
            stay: number,
        })?;
        number = number.saturating_add(1);
    }
    turns.sort_unstable_by_key(|turn| Reverse((turn.weight, turn.arrival, turn.stay)));
    Ok(turns)
}

/// Places all stays.
pub fn place_all(
    alloc: Global,
    network: &mut Network,
    search: &mut Search,
    problem: &Problem,
) -> Result<(), Stop> {
    let turns = turns(alloc, problem)?;
    for turn in &turns {
        place(network, search, problem, turn.stay)?;
    }
    Ok(())
}

// Places a stay.
fn place(
    network: &mut Network,
    search: &mut Search,
    problem: &Problem,
    number: u32,
) -> Result<(), Stop> {
    let stay = problem.stay(number)?;
    let direct = first_room(network, problem, &stay)?;
    if find_path(network, search, problem, number, &stay, direct)? {
        return send_along(network, search);
    }
    match direct {
        Some(round) => send_direct(network, number, problem.cell(stay.resource, round)),
        None => Err(Stop::GivenUp),
    }
}

// Puts a stay that stands in no cell into one that has room.
fn send_direct(network: &mut Network, number: u32, cell: u32) -> Result<(), Stop> {
    network.put(network.stay_node(number), cell)?;
    network.send_up(cell)
}

// Looks for a path for a stay that is shorter than by its first round with room, raises the potentials by what that shows, and says
// whether there is one.
fn find_path(
    network: &mut Network,
    search: &mut Search,
    problem: &Problem,
    number: u32,
    stay: &Stay,
    direct: Option<u32>,
) -> Result<bool, Stop> {
    let potential = least_potential(network, problem, stay)?;
    let bound = match direct {
        Some(round) => waiting(stay, round).saturating_sub(potential),
        None => FAR,
    };
    if bound == 0 {
        return Ok(false);
    }
    let shorter = search.run(network, problem, number, potential, bound)?;
    search.raise_potentials(network)?;
    Ok(shorter)
}

// What a stay's waiting up to a round costs.
fn waiting(stay: &Stay, round: u32) -> u32 {
    stay.weight
        .saturating_mul(round.saturating_sub(stay.arrival))
}

// What the cheapest path to the root costs a stay that isn't placed, at least.
fn least_potential(network: &Network, problem: &Problem, stay: &Stay) -> Result<u32, Stop> {
    let mut least = u32::MAX;
    for round in stay.arrival..stay.last.saturating_add(1) {
        let waits = waiting(stay, round);
        if waits >= least {
            break;
        }
        let potential = network.node(problem.cell(stay.resource, round))?.potential;
        least = least.min(waits.saturating_add(potential));
    }
    Ok(least)
}

// The first round of a stay's window with room, if there is one.
fn first_room(network: &Network, problem: &Problem, stay: &Stay) -> Result<Option<u32>, Stop> {
    for round in stay.arrival..stay.last.saturating_add(1) {
        if network.has_room(problem.cell(stay.resource, round))? {
            return Ok(Some(round));
        }
    }
    Ok(None)
}

// Changes what is sent along the path that a search found.
fn send_along(network: &mut Network, search: &Search) -> Result<(), Stop> {
    let mut to = network.root();
    for _ in 0..network.len() {
        let from = search.came_from(to).ok_or(Stop::GivenUp)?;
        if network.stay_of(from).is_none() {
            step(network, from, to)?;
            to = from;
        } else if let Some(cell) = network.put(from, to)? {
            to = cell;
        } else {
            return Ok(());
        }
    }
    Err(Stop::GivenUp)
}

// Makes a step between a cell and the node above it.
fn step(network: &mut Network, from: u32, to: u32) -> Result<(), Stop> {
    if network.node(from)?.above == to {
        network.send(from)
    } else {
        network.take_back(to)
    }
}
