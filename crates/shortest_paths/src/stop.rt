//! Why a search stops.

use std::alloc::{AllocError, AllocFailed};

/// Why a search stops with no guess.
#[derive(Clone, Copy)]
pub enum Stop {
    /// It came to what it isn't made for.
    GivenUp,
    /// There is no memory left.
    OutOfMemory,
}

impl From<AllocError> for Stop {
    fn from(_error: AllocError) -> Stop {
        Stop::OutOfMemory
    }
}

impl<T: Drop> From<AllocFailed<T>> for Stop {
    fn from(_error: AllocFailed<T>) -> Stop {
        Stop::OutOfMemory
    }
}
