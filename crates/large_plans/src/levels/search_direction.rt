//! The two directions of a search, and the arcs that each of them follows.

use crate::levels::level::Node;

/// What a search looks for.
#[derive(Clone, Copy)]
pub enum SearchDirection {
    /// Where a node's imbalance above 0 can go: along the arcs.
    Push,
    /// Where what a node lacks can come from: against the arcs.
    Pull,
}

impl SearchDirection {
    /// A cost or a potential with the sign that it has in this direction.
    #[inline]
    pub fn signed(self, number: i64) -> i64 {
        match self {
            SearchDirection::Push => number,
            SearchDirection::Pull => number.saturating_neg(),
        }
    }

    /// Whether a row leads to its unit, which has this cap.
    #[inline]
    pub fn leads_up(self, row: &Node, cap: u32) -> bool {
        match self {
            SearchDirection::Push => cap > 0,
            SearchDirection::Pull => row.flow > 0,
        }
    }

    /// Whether a row leads to the next block.
    #[inline]
    pub fn leads_on(self, row: &Node) -> bool {
        match self {
            SearchDirection::Push => true,
            SearchDirection::Pull => row.wait > 0,
        }
    }

    /// Whether a row leads to the block before, where it is this node.
    #[inline]
    pub fn leads_back(self, previous: &Node) -> bool {
        match self {
            SearchDirection::Push => previous.wait > 0,
            SearchDirection::Pull => true,
        }
    }

    /// Whether a unit leads to the one above it or the root.
    #[inline]
    pub fn leads_out(self, unit: &Node) -> bool {
        match self {
            SearchDirection::Push => unit.flow < unit.cap,
            SearchDirection::Pull => unit.flow > 0,
        }
    }

    /// Whether a unit with this cap leads to a node right below it.
    #[inline]
    pub fn leads_below(self, below: &Node, cap: u32) -> bool {
        match self {
            SearchDirection::Push => below.flow > 0,
            SearchDirection::Pull => cap > 0 && below.flow < below.cap,
        }
    }

    /// Whether a search may end at a node, since it has what the start lacks or lacks what that has.
    #[inline]
    pub fn meets(self, node: &Node) -> bool {
        match self {
            SearchDirection::Push => node.imbalance < 0,
            SearchDirection::Pull => node.imbalance > 0,
        }
    }

    /// Whether a search starts at a node.
    #[inline]
    pub fn starts(self, node: &Node) -> bool {
        match self {
            SearchDirection::Push => node.imbalance > 0,
            SearchDirection::Pull => node.imbalance < 0,
        }
    }
}
