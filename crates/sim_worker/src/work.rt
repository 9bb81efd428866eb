//! How far the drivers and the lanes of a run are.

use crate::script_port::ScriptPort;
use cam_types::Outcome;

/// How far a driver is.
#[derive(Clone, Copy)]
pub(crate) struct Driver {
    /// How many of its rows it has done.
    pub(crate) done: usize,
    /// Whether its next row was refused in this round.
    pub(crate) refused: bool,
}

/// A command that a lane has served, and that has not completed.
#[derive(Clone, Copy)]
pub(crate) struct Hand {
    pub(crate) ccb: u32,
    pub(crate) outcome: Outcome,
}

/// A lane: its number, its port, and what it has in hand.
#[derive(Drop)]
pub(crate) struct Lane {
    pub(crate) number: u32,
    pub(crate) port: ScriptPort,
    pub(crate) hand: Option<Hand>,
}
