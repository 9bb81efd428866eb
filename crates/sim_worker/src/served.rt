//! What a port has served.

use cam_types::{Command, Outcome};

/// A command that a port has served, and how it came out.
#[derive(Clone, Copy, Debug, PartialEq, Eq)]
pub struct Served {
    /// The command.
    pub command: Command,
    /// Its result, of a status other than 00.
    pub outcome: Outcome,
}
