//! The path that a search found, along which requests are moved.

use crate::columns::Columns;
use crate::repair::arc::Arc;
use crate::repair::direction::Direction;
use crate::repair::time_net::{TimeNet, as_imbalance};
use std::alloc::{AllocError, Global};

/// The end of the best path so far.
#[derive(Clone, Copy)]
pub enum Goal {
    /// There is no path yet.
    Unknown,
    /// The root, reached from this node.
    Root(u32),
    /// A node.
    Node(u32),
}

/// A path, whose memory serves one after another.
#[derive(Drop)]
pub struct Path {
    start: u32,
    goal: Goal,
    direction: Direction,
    // From the goal back to the start.
    arcs: Vec<Arc>,
}

impl Path {
    /// A path without arcs.
    pub fn new(alloc: Global) -> Path {
        Path {
            start: 0,
            goal: Goal::Unknown,
            direction: Direction::Push,
            arcs: Vec::new(alloc),
        }
    }

    /// Takes the arcs by which a search from a node came to its goal. It has at most so many.
    pub fn trace(
        &mut self,
        net: &TimeNet,
        columns: &Columns,
        start: u32,
        goal: Goal,
        direction: Direction,
        most: usize,
    ) -> Result<(), AllocError> {
        self.start = start;
        self.goal = goal;
        self.direction = direction;
        self.arcs.clear();
        let mut here = self.begin()?;
        for _ in 0..most {
            if here == start {
                break;
            }
            let from = net.node(here).from;
            self.arcs.push(match direction {
                Direction::Push => Arc::between(net, columns, from, here),
                Direction::Pull => Arc::between(net, columns, here, from),
            })?;
            here = from;
        }
        Ok(())
    }

    // Takes the arc between the last node and the root, if that is the goal, and answers the node.
    fn begin(&mut self) -> Result<u32, AllocError> {
        match self.goal {
            Goal::Unknown => Ok(self.start),
            Goal::Node(number) => Ok(number),
            Goal::Root(from) => {
                self.arcs.push(match self.direction {
                    Direction::Push => Arc::Up(from),
                    Direction::Pull => Arc::Down(from),
                })?;
                Ok(from)
            }
        }
    }

    /// How many can be moved along it: no more than the start has or lacks, nor than the goal lacks or has.
    pub fn room(&self, net: &TimeNet, columns: &Columns) -> u32 {
        let mut count = net.node(self.start).imbalance.unsigned_abs();
        if let Goal::Node(goal) = self.goal {
            count = count.min(net.node(goal).imbalance.unsigned_abs());
        }
        for arc in &self.arcs {
            count = count.min(arc.room(net, columns));
        }
        count
    }

    /// Moves so many along it.
    pub fn send(&self, net: &mut TimeNet, count: u32) {
        for arc in &self.arcs {
            arc.send(net, count);
        }
        let more = match self.direction {
            Direction::Push => as_imbalance(count),
            Direction::Pull => as_imbalance(count).saturating_neg(),
        };
        net.add_imbalance(self.start, more.saturating_neg());
        if let Goal::Node(goal) = self.goal {
            net.add_imbalance(goal, more);
        }
    }
}
