//! Why the program ended early.

use cam_types::ConfigError;
use std::alloc::AllocError;
use std::io;
use thiserror::Error;

/// Why the program ended early.
#[derive(Debug, Drop, Error)]
pub enum Fault {
    /// A line of a list of calls that is no opening or no call: its number, from 1.
    #[error("line {0}: not understood")]
    Line(usize),
    /// The words are none of those that the program takes.
    #[error("script, trace, calls alone, or calls and a number of transports is wanted")]
    Word,
    /// No calls are listed.
    #[error("no run")]
    NoRun,
    #[error("{0}")]
    Config(#[from] ConfigError),
    #[error("out of memory")]
    OutOfMemory(#[from] AllocError),
    #[error("{0}")]
    Io(#[from] io::Error),
}
