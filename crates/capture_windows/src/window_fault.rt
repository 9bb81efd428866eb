//! Why no window is taken.

ghost use Rattle.std.specs.Prelude.{◌≡◌};
ghost use Rattle.capture_windows.specs.declared.window_fault.WindowFault.TheVariants.{OutOfMemory};

use std::alloc::AllocError;
use thiserror::Error;

/// Why no window is taken.
#[derive(Clone, Copy, Debug, Error)]
pub enum WindowFault {
    /// The depth that was given for the first device is below the second number, which were in flight at it at one time.
    #[error("{1} were in flight")]
    TooFew(usize, u32),
    /// More than 4294967295 attempts were given.
    #[error("there are more than 4294967295 requests in a window")]
    TooMany,
    /// The window has no round, more than 65,534, or ends after the last time there is.
    #[error("a window has 1 to 65,534 rounds")]
    TooLong,
    /// An attempt is of a device that isn't known.
    #[error("a request is of a device that isn't known")]
    NoDevice,
    /// There is no memory left.
    #[error("out of memory")]
    OutOfMemory,
}

impl From<AllocError> for WindowFault {
    ghost from_gives = { λ _ e. e ≡ OutOfMemory };

    fn from(_error: AllocError) -> WindowFault {
        WindowFault::OutOfMemory
    }
}
