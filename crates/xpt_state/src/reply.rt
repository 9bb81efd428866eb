//! What a transport answers to a lane and to an event.

use crate::done::Done;
use crate::idle::Idle;
use cam_types::Command;

/// What a lane gets that asks for the next command.
#[derive(Clone, Copy, Debug, PartialEq, Eq)]
pub enum Sent {
    /// The command that was sent.
    Command(Command),
    /// Nothing was sent, and no event happened.
    Idle(Idle),
}

/// What a transport answers to an event.
#[derive(Clone, Copy, Debug, PartialEq, Eq)]
pub enum Reply {
    /// The number of the CCB that was submitted.
    Ccb(u32),
    /// The command that was sent.
    Command(Command),
    /// What the completion comes to.
    Done(Done),
    /// The round that opened.
    Round(u32),
    /// No more than that it happened.
    Nothing,
}
