//! An arc of the graph, with what it gains and loses.

/// A step from one node to another, with what it gains and what it loses.
#[derive(Clone, Copy)]
pub struct Arc {
    /// The node from which the step leads.
    pub tail: u32,
    /// The node to which it leads.
    pub head: u32,
    /// What it gains.
    pub up: u32,
    /// What it loses.
    pub down: u32,
    /// What the caller notes on it.
    pub mark: Option<u32>,
}
