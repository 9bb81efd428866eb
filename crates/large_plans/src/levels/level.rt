//! A level of time: blocks of rounds, with a node in each block for each column.

use crate::columns::{Column, Columns};
use crate::levels::outline::Outline;
use std::alloc::{AllocError, Global};

/// The distance of a node that no search has reached.
pub const UNREACHED: u32 = u32::MAX;

/// A unit or a row in a block. What comes into a unit goes on to the unit above; what comes into a row goes on to its unit, or
/// waits for the next block.
#[derive(Clone, Copy)]
pub struct Node {
    /// What the cheapest path from here costs one request more.
    pub potential: i64,
    /// How far a search has come to get here, less what the potentials say.
    pub distance: u32,
    /// The node from which it came.
    pub from: u32,
    /// How many requests go on from here in this block.
    pub flow: u32,
    /// How many wait here for the next block.
    pub wait: u32,
    /// How many may go on from here in this block.
    pub cap: u32,
    /// How many come here beyond those that go on or wait, and below 0 how many fewer.
    pub imbalance: i32,
}

impl Node {
    /// A node from which nothing goes on.
    pub const EMPTY: Node = Node {
        potential: 0,
        distance: UNREACHED,
        from: 0,
        flow: 0,
        wait: 0,
        cap: 0,
        imbalance: 0,
    };
}

/// The nodes of all blocks, block by block.
#[derive(Drop)]
pub struct Level {
    /// How many blocks there are.
    pub blocks: u32,
    /// How many nodes a block has.
    pub width: u32,
    nodes: Vec<Node>,
}

impl Level {
    /// The level of an outline, with caps alone.
    pub fn of(alloc: Global, outline: &Outline) -> Result<Level, AllocError> {
        let mut nodes = Vec::with_capacity(alloc, outline.caps.len())?;
        for cap in &outline.caps {
            nodes.push(Node {
                cap: *cap,
                ..Node::EMPTY
            })?;
        }
        Ok(Level {
            blocks: outline.blocks,
            width: outline.width,
            nodes,
        })
    }

    /// How many nodes there are.
    pub fn len(&self) -> u32 {
        u32::try_from(self.nodes.len()).unwrap_or(u32::MAX)
    }

    /// The number of a node.
    #[inline]
    pub fn at(&self, block: u32, column: u32) -> u32 {
        block.saturating_mul(self.width).saturating_add(column)
    }

    /// The place in its block of a node.
    #[inline]
    pub fn column_of(&self, number: u32) -> u32 {
        number.checked_rem(self.width).unwrap_or(0)
    }

    /// A node, and an empty one past all.
    #[inline]
    pub fn node(&self, number: u32) -> Node {
        match self.nodes.get(number as usize) {
            Some(node) => *node,
            None => Node::EMPTY,
        }
    }

    /// The node of the same column in the next block, if there is one.
    #[inline]
    pub fn next(&self, number: u32) -> Option<u32> {
        let next = number.checked_add(self.width)?;
        if (next as usize) < self.nodes.len() {
            Some(next)
        } else {
            None
        }
    }

    /// The node of the same column in the block before, if there is one.
    #[inline]
    pub fn previous(&self, number: u32) -> Option<u32> {
        number.checked_sub(self.width)
    }

    /// The node of the unit above, if there is one.
    #[inline]
    pub fn above(&self, block: u32, column: &Column) -> Option<u32> {
        Some(self.at(block, column.above?))
    }

    /// The potential of the unit above, and 0 if there is none.
    #[inline]
    pub fn potential_above(&self, block: u32, column: &Column) -> i64 {
        match self.above(block, column) {
            Some(above) => self.node(above).potential,
            None => 0,
        }
    }

    /// What the cheapest path of those that wait costs one request more, if it can wait.
    #[inline]
    pub fn potential_of_waiting(&self, number: u32, column: &Column) -> Option<i64> {
        let next = self.next(number)?;
        Some(
            self.node(next)
                .potential
                .saturating_add(i64::from(column.weight)),
        )
    }

    /// Sets how a search reached a node.
    #[inline]
    pub fn set_distance(&mut self, number: u32, distance: u32, from: u32) {
        if let Some(node) = self.nodes.get_mut(number as usize) {
            node.distance = distance;
            node.from = from;
        }
    }

    /// Takes back that a search reached a node, and adds to its potential.
    #[inline]
    pub fn clear_distance(&mut self, number: u32, more: i64) {
        if let Some(node) = self.nodes.get_mut(number as usize) {
            node.distance = UNREACHED;
            node.potential = node.potential.saturating_add(more);
        }
    }

    /// Sets a node's potential.
    #[inline]
    pub fn set_potential(&mut self, number: u32, potential: i64) {
        if let Some(node) = self.nodes.get_mut(number as usize) {
            node.potential = potential;
        }
    }

    /// Raises a node's potential up to this one.
    #[inline]
    pub fn raise_potential(&mut self, number: u32, potential: i64) {
        if let Some(node) = self.nodes.get_mut(number as usize) {
            node.potential = node.potential.max(potential);
        }
    }

    /// Sets how many go on from a node.
    #[inline]
    pub fn set_flow(&mut self, number: u32, flow: u32) {
        if let Some(node) = self.nodes.get_mut(number as usize) {
            node.flow = flow;
        }
    }

    /// Sets how many wait at a node.
    #[inline]
    pub fn set_wait(&mut self, number: u32, wait: u32) {
        if let Some(node) = self.nodes.get_mut(number as usize) {
            node.wait = wait;
        }
    }

    /// Sets a node's imbalance.
    #[inline]
    pub fn set_imbalance(&mut self, number: u32, imbalance: i32) {
        if let Some(node) = self.nodes.get_mut(number as usize) {
            node.imbalance = imbalance;
        }
    }

    /// Adds to a node's imbalance.
    #[inline]
    pub fn add_imbalance(&mut self, number: u32, more: i32) {
        if let Some(node) = self.nodes.get_mut(number as usize) {
            node.imbalance = node.imbalance.saturating_add(more);
        }
    }

    /// Adds to what goes on from a column of a block and from all columns above it.
    pub fn add_flow(&mut self, columns: &Columns, block: u32, column: u32, more: u32) {
        let mut here = Some(column);
        for _ in 0..columns.len() {
            let Some(column) = here else {
                return;
            };
            let number = self.at(block, column);
            self.set_flow(number, self.node(number).flow.saturating_add(more));
            here = columns.column(column).above;
        }
    }

    /// How many more may go on from a column of a block and from all columns above it.
    pub fn room(&self, columns: &Columns, block: u32, column: u32) -> u32 {
        let mut room = u32::MAX;
        let mut here = Some(column);
        for _ in 0..columns.len() {
            let Some(column) = here else {
                break;
            };
            let node = self.node(self.at(block, column));
            room = room.min(node.cap.saturating_sub(node.flow));
            here = columns.column(column).above;
        }
        room
    }
}

/// A count as an imbalance.
#[inline]
pub fn as_imbalance(count: u32) -> i32 {
    i32::try_from(count).unwrap_or(i32::MAX)
}
