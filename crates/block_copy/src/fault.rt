//! Why the copy failed.

use cam_types::ConfigError;
use event_rules::Refusal;
use std::alloc::AllocError;
use std::io;
use thiserror::Error;
use trace_file::WriteFault;
use xpt_lock::{GatherFault, SeatsFull, SharedFault};

/// Why the copy failed. Its text is the line on standard error, after the program's name.
#[derive(Drop, Debug, Error)]
pub enum Fault {
    /// The configuration breaks a rule.
    #[error("{0}")]
    Config(#[from] ConfigError),
    /// There is no seat left at the transport.
    #[error("{0}")]
    Seats(#[from] SeatsFull),
    /// A call of the transport made no event.
    #[error("{0}")]
    Call(#[from] SharedFault),
    /// The seats' receipts aren't those of one history.
    #[error("{0}")]
    Gather(#[from] GatherFault),
    /// The trace wasn't written.
    #[error("{0}")]
    Trace(#[from] WriteFault),
    /// There is no memory left.
    #[error("out of memory")]
    OutOfMemory(#[from] AllocError),
    /// A CCB has no block, or no place in the table of blocks.
    #[error("ccb {0} has no block")]
    NoBlock(u32),
    /// The first block of the copy that isn't the text's.
    #[error("block {0} differs")]
    Differs(usize),
    /// A line wasn't printed.
    #[error("{0}")]
    Io(#[from] io::Error),
}
