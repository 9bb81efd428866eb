//! The two directions of a search, and the arcs that each of them follows.

use crate::repair::time_net::Node;

/// What a search looks for.
#[derive(Clone, Copy)]
pub enum Direction {
    /// Where a node's imbalance above 0 can go: along the arcs.
    Push,
    /// Where what a node lacks can come from: against the arcs.
    Pull,
}

impl Direction {
    /// Whether a row that sends so many leads to its unit, which has this cap.
    #[inline]
    pub fn leads_up(self, flow: u32, cap: u32) -> bool {
        match self {
            Direction::Push => cap > 0,
            Direction::Pull => flow > 0,
        }
    }

    /// Whether a row in which so many wait leads to the next round.
    #[inline]
    pub fn leads_on(self, wait: u32) -> bool {
        match self {
            Direction::Push => true,
            Direction::Pull => wait > 0,
        }
    }

    /// Whether a row leads to the round before, in which so many waited.
    #[inline]
    pub fn leads_back(self, waited: u32) -> bool {
        match self {
            Direction::Push => waited > 0,
            Direction::Pull => true,
        }
    }

    /// Whether a unit that sends so many and has this cap leads to the one above it or the root.
    #[inline]
    pub fn leads_out(self, flow: u32, cap: u32) -> bool {
        match self {
            Direction::Push => flow < cap,
            Direction::Pull => flow > 0,
        }
    }

    /// Whether a search may end at a node, since it has what the start lacks or lacks what that has.
    #[inline]
    pub fn meets(self, node: &Node) -> bool {
        match self {
            Direction::Push => node.imbalance < 0,
            Direction::Pull => node.imbalance > 0,
        }
    }

    /// Whether a search starts at a node.
    #[inline]
    pub fn starts(self, node: &Node) -> bool {
        match self {
            Direction::Push => node.imbalance > 0,
            Direction::Pull => node.imbalance < 0,
        }
    }
}
