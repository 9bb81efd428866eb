//! The cells of a problem as nodes of a network, with the root after them.

ghost use Rattle.std.specs.Prelude.{◌≡◌, ◌+◌, ◌*◌, length, IfOk};

use crate::network::{Network, Node};
use crate::problem::Problem;
use crate::stop::Stop;
use std::alloc::Global;

/// The potential of a cell that takes no stay: no path leads through it.
const CLOSED: u32 = 1_000_000_000;

impl Problem {
    /// The node of a cell.
    pub fn cell(&self, resource: u32, round: u32) -> u32 {
        resource
            .saturating_mul(self.rounds.saturating_add(1))
            .saturating_add(round)
    }

    // How many resources there are.
    fn resources(&self) -> u32 {
        u32::try_from(self.above.len()).unwrap_or(u32::MAX)
    }

    // The resource above a resource, if there is one.
    fn resource_above(&self, resource: u32) -> Option<u32> {
        let above = self.above.get(resource as usize).copied()?;
        if above < self.resources() {
            Some(above)
        } else {
            None
        }
    }

    // How many stays a cell takes, and 0 where the cells above it take none.
    fn cap(&self, resource: u32, round: u32) -> u32 {
        let mut here = resource;
        for _ in 0..self.resources() {
            let Some(above) = self.resource_above(here) else {
                break;
            };
            here = above;
            if self.own_cap(here, round) == 0 {
                return 0;
            }
        }
        self.own_cap(resource, round)
    }

    fn own_cap(&self, resource: u32, round: u32) -> u32 {
        self.caps
            .get(self.cell(resource, round) as usize)
            .copied()
            .unwrap_or(0)
    }

    /// The node of the root, which is how many cells there are.
    pub fn root(&self) -> Result<u32, Stop>
        ensures { IfOk result (λ root. root ≡ length self.now.above.items * (self.now.rounds + 1)) }
    {
        let each = self.rounds.checked_add(1).ok_or(Stop::GivenUp)?;
        let Ok(resources) = u32::try_from(self.above.len()) else {
            return Err(Stop::GivenUp);
        };
        resources.checked_mul(each).ok_or(Stop::GivenUp)
    }

    /// The network of the cells, the root and the stays, where no stay stands in a cell.
    pub fn network(&self, alloc: Global, root: u32) -> Result<Network, Stop> {
        let mut network = Network::new(alloc, root);
        self.add_nodes(&mut network, root)?;
        Ok(network)
    }

    // Adds the cells, the root and the stays.
    fn add_nodes(&self, network: &mut Network, root: u32) -> Result<(), Stop> {
        for resource in 0..self.resources() {
            self.add_cells(network, resource)?;
        }
        network.push(Node::new(root, u32::MAX, 0))?;
        for _stay in self.stays.iter() {
            network.push(Node::new(root, 1, 0))?;
        }
        Ok(())
    }

    // Adds the cells of a resource.
    fn add_cells(&self, network: &mut Network, resource: u32) -> Result<(), Stop> {
        for round in 0..self.rounds.saturating_add(1) {
            let above = match self.resource_above(resource) {
                Some(above) => self.cell(above, round),
                None => network.root(),
            };
            let cap = self.cap(resource, round);
            let potential = if cap == 0 { CLOSED } else { 0 };
            network.push(Node::new(above, cap, potential))?;
        }
        Ok(())
    }
}
