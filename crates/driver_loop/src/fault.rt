//! Why the loop ended early.

use cam_types::ConfigError;
use event_rules::Refusal;
use std::alloc::AllocError;
use std::io;
use thiserror::Error;
use trace_file::WriteFault;

/// Why the loop ended early. Its text is the line on standard error, after the program's name.
#[derive(Drop, Debug, Error)]
pub enum Fault {
    /// A word that isn't two hexadecimal digits.
    #[error("not a status: two hexadecimal digits are wanted")]
    Status,
    /// The configuration breaks a rule.
    #[error("{0}")]
    Config(#[from] ConfigError),
    /// The transport refused a call.
    #[error("refused {0}")]
    Refused(#[from] Refusal),
    /// There is no memory left.
    #[error("out of memory")]
    OutOfMemory(#[from] AllocError),
    /// The trace wasn't written.
    #[error("{0}")]
    Trace(#[from] WriteFault),
    /// A line wasn't printed.
    #[error("{0}")]
    Io(#[from] io::Error),
}
