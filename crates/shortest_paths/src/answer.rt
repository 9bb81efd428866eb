//! What a network says where all stays are placed.

ghost use Rattle.std.specs.Prelude.{◌≡◌, ◌+◌, length, IfOk};

use crate::network::Network;
use crate::problem::Problem;
use crate::stop::Stop;
use std::alloc::Global;

/// The potential of a cell that takes no stay. It is above all others, so that no stay would move there.
const HIGH: u32 = u32::MAX;

/// The potential of each cell, of which there are as many as the root's number, and of the root.
pub fn potentials(alloc: Global, network: &Network, root: u32) -> Result<Vec<u64>, Stop>
    ensures { IfOk result (λ potentials. length potentials.items ≡ root + 1) }
{
    let mut potentials = Vec::with_capacity(alloc, root as usize)?;
    for number in 0..root {
        let node = network.node(number)?;
        let potential = if node.cap == 0 { HIGH } else { node.potential };
        potentials.push(u64::from(potential))?;
    }
    potentials.push(0)?;
    Ok(potentials)
}

/// The round of each stay.
pub fn rounds(alloc: Global, network: &Network, problem: &Problem) -> Result<Vec<u32>, Stop>
    ensures { IfOk result (λ rounds. length rounds.items ≡ length problem.now.stays.items) }
{
    let mut rounds = Vec::with_capacity(alloc, problem.stays.len())?;
    let mut number = 0u32;
    for stay in problem.stays.iter() {
        let cell = network.node(network.stay_node(number))?.above;
        rounds.push(cell.saturating_sub(problem.cell(stay.resource, 0)))?;
        number = number.saturating_add(1);
    }
    Ok(rounds)
}
