//! The nodes that a search has reached, and those from which it has still to look on.

use crate::levels::level::{Level, UNREACHED};
use crate::levels::search_direction::SearchDirection;
use std::alloc::{AllocError, Global};
use std::cmp::Reverse;
use std::collections::BinaryHeap;

/// A node, whose column is kept beside its number, since a search needs it at each step.
#[derive(Clone, Copy)]
pub struct Spot {
    /// Its number.
    pub number: u32,
    /// Its place in its block.
    pub column: u32,
}

/// Nodes by their distance, which is kept in the nodes.
#[derive(Drop)]
pub struct Frontier {
    reached: Vec<u32>,
    // Nodes at the distance up to which the search has come, of which those before `next` are done, and nodes that are farther.
    here: Vec<Spot>,
    next: usize,
    farther: BinaryHeap<Reverse<(u32, u32)>>,
    /// How far the search has come.
    pub distance: u32,
    /// How far the nearest goal is that it has reached.
    pub best: u32,
}

impl Frontier {
    /// No nodes.
    pub fn new(alloc: Global) -> Frontier {
        Frontier {
            reached: Vec::new(alloc),
            here: Vec::new(alloc),
            next: 0,
            farther: BinaryHeap::new(alloc),
            distance: 0,
            best: UNREACHED,
        }
    }

    /// Begins again with one node.
    pub fn begin(&mut self, level: &mut Level, start: u32) -> Result<(), AllocError> {
        self.reached.clear();
        self.here.clear();
        self.next = 0;
        self.farther.clear();
        self.distance = 0;
        self.best = UNREACHED;
        self.mark(level, start, 0, start)?;
        let column = level.column_of(start);
        self.add(
            Spot {
                number: start,
                column,
            },
            0,
        )
    }

    /// The nodes that were reached.
    pub fn reached(&self) -> &[u32] {
        &self.reached
    }

    /// Takes out the nearest node from which no look was taken at its distance, if it is nearer than the goal.
    pub fn nearest(&mut self, level: &Level) -> Option<Spot> {
        let most = self.here.len().saturating_add(self.farther.len());
        for _ in 0..most {
            let spot = self.take(level)?;
            if level.node(spot.number).distance == self.distance {
                return Some(spot);
            }
        }
        None
    }

    // Takes out a nearest node, which may meanwhile have been reached by a shorter path.
    fn take(&mut self, level: &Level) -> Option<Spot> {
        if self.best <= self.distance {
            return None;
        }
        if let Some(spot) = self.here.get(self.next).copied() {
            self.next = self.next.saturating_add(1);
            return Some(spot);
        }
        self.here.clear();
        self.next = 0;
        let Reverse((distance, number)) = self.farther.pop()?;
        if distance >= self.best {
            return None;
        }
        self.distance = distance;
        Some(Spot {
            number,
            column: level.column_of(number),
        })
    }

    /// Marks a node with the path by which it was reached.
    #[inline]
    pub fn mark(
        &mut self,
        level: &mut Level,
        number: u32,
        distance: u32,
        from: u32,
    ) -> Result<(), AllocError> {
        let was = level.node(number).distance;
        if was == UNREACHED {
            self.reached.push(number)?;
        }
        level.set_distance(number, distance, from);
        Ok(())
    }

    /// Adds a node from which to look on.
    #[inline]
    pub fn add(&mut self, spot: Spot, distance: u32) -> Result<(), AllocError> {
        if distance == self.distance {
            self.here.push(spot)?;
        } else {
            self.farther.push(Reverse((distance, spot.number)))?;
        }
        Ok(())
    }

    /// Takes back that nodes were reached. From where each was, and which they were, stays known until the next search.
    pub fn forget(&self, level: &mut Level) {
        for number in &self.reached {
            level.clear_distance(*number, 0);
        }
    }

    /// The same, where the potential of each node that is nearer than the goal is changed by how much nearer it is, up or down.
    pub fn forget_and_change(&self, level: &mut Level, direction: SearchDirection) {
        for number in &self.reached {
            let distance = level.node(*number).distance;
            let nearer = i64::from(self.best.saturating_sub(distance));
            level.clear_distance(*number, direction.signed(nearer));
        }
    }
}
