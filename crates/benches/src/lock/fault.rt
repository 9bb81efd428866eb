//! Why the bench ended early.

use cam_types::ConfigError;
use std::alloc::AllocError;
use std::io;
use thiserror::Error;
use xpt_lock::{GatherFault, SeatsFull, SharedFault};

/// Why the program ended early.
#[derive(Debug, Drop, Error)]
pub enum Fault {
    #[error("{0}")]
    Config(#[from] ConfigError),
    #[error("{0}")]
    Seats(#[from] SeatsFull),
    #[error("{0}")]
    Call(#[from] SharedFault),
    #[error("{0}")]
    Gather(#[from] GatherFault),
    #[error("out of memory")]
    OutOfMemory(#[from] AllocError),
    #[error("{0}")]
    Io(#[from] io::Error),
}
