//! Why there is no window, or no recording of one.

use cam_types::ConfigError;
use capture::CaptureFault;
use capture_windows::WindowFault;
use std::alloc::{AllocError, AllocFailed};

/// Why there is no window, or no recording of one.
#[derive(Clone, Copy)]
pub enum CutFault {
    /// There is no recording of its requests.
    Capture(CaptureFault),
    /// There are more adapters than a recording may have.
    TooManyAdapters,
    /// No window is taken.
    Window(WindowFault),
    /// A device had so many requests in flight, more than the depth at this place of the layout's gives it.
    TooFewSlots(usize, u32),
    /// So many devices have requests in it, more than 32.
    TooManyDevices(usize),
    /// So many requests go on after it, more than 1,048,576.
    TooManyOpen(usize),
    /// There is no memory left.
    OutOfMemory,
}

impl<T: Drop> From<AllocFailed<T>> for CutFault {
    fn from(_error: AllocFailed<T>) -> CutFault {
        CutFault::OutOfMemory
    }
}

impl From<AllocError> for CutFault {
    fn from(_error: AllocError) -> CutFault {
        CutFault::OutOfMemory
    }
}

impl From<CaptureFault> for CutFault {
    fn from(fault: CaptureFault) -> CutFault {
        match fault {
            CaptureFault::OutOfMemory => CutFault::OutOfMemory,
            other => CutFault::Capture(other),
        }
    }
}

impl From<ConfigError> for CutFault {
    fn from(error: ConfigError) -> CutFault {
        match error {
            ConfigError::OutOfMemory => CutFault::OutOfMemory,
            ConfigError::Fault(_) => CutFault::TooManyAdapters,
        }
    }
}
