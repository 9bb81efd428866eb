//! The nodes that a search has reached, and those from which it has still to look on.

use crate::repair::direction::Direction;
use crate::repair::time_net::{TimeNet, UNREACHED};
use std::alloc::{AllocError, Global};
use std::cmp::Reverse;
use std::collections::BinaryHeap;

/// Nodes by their distance, which is kept in the nodes.
#[derive(Drop)]
pub struct Frontier {
    reached: Vec<u32>,
    // Nodes at the distance up to which the search has come, of which the last is taken first, and nodes that are farther.
    here: Vec<u32>,
    farther: BinaryHeap<Reverse<(u32, u32)>>,
    /// How far the search has come.
    pub distance: u32,
    /// How far the nearest goal is that it has reached.
    pub best: u32,
}

impl Frontier {
    /// No nodes.
    pub fn new(alloc: Global) -> Frontier {
        Frontier {
            reached: Vec::new(alloc),
            here: Vec::new(alloc),
            farther: BinaryHeap::new(alloc),
            distance: 0,
            best: UNREACHED,
        }
    }

    /// Begins again with one node.
    pub fn begin(&mut self, net: &mut TimeNet, start: u32) -> Result<(), AllocError> {
        self.reached.clear();
        self.here.clear();
        self.farther.clear();
        self.distance = 0;
        self.best = UNREACHED;
        if let Some(node) = net.node_mut(start) {
            node.distance = 0;
            node.from = start;
            self.reached.push(start)?;
        }
        self.add(start, 0)
    }

    /// The nodes that were reached.
    pub fn reached(&self) -> &[u32] {
        &self.reached
    }

    /// Takes out a nearest node, if it is nearer than the goal. It may meanwhile have been reached by a shorter path.
    #[inline]
    pub fn take(&mut self) -> Option<u32> {
        if self.best <= self.distance {
            return None;
        }
        if let Some(number) = self.here.pop() {
            return Some(number);
        }
        let Reverse((distance, number)) = self.farther.pop()?;
        if distance >= self.best {
            return None;
        }
        self.distance = distance;
        Some(number)
    }

    /// Lists a node that is reached for the first time.
    #[inline]
    pub fn list(&mut self, number: u32) -> Result<(), AllocError> {
        self.reached.push(number)?;
        Ok(())
    }

    /// Adds a node from which to look on.
    #[inline]
    pub fn add(&mut self, number: u32, distance: u32) -> Result<(), AllocError> {
        if distance == self.distance {
            self.here.push(number)?;
        } else {
            self.farther.push(Reverse((distance, number)))?;
        }
        Ok(())
    }

    /// Takes back that nodes were reached. From where each was, and which they were, stays known until the next search.
    pub fn forget(&self, net: &mut TimeNet) {
        for number in &self.reached {
            if let Some(node) = net.node_mut(*number) {
                node.distance = UNREACHED;
            }
        }
    }

    /// Changes the potential of each node that is nearer than the goal by how much nearer it is: up for a push, down for a pull.
    pub fn change(&self, net: &mut TimeNet, direction: Direction) {
        for number in &self.reached {
            if let Some(node) = net.node_mut(*number) {
                let nearer = self.best.saturating_sub(node.distance);
                let nearer = i32::try_from(nearer).unwrap_or(i32::MAX);
                node.potential = match direction {
                    Direction::Push => node.potential.saturating_add(nearer),
                    Direction::Pull => node.potential.saturating_sub(nearer),
                };
            }
        }
    }
}
