//! Why there is no recording of a capture.

ghost use Rattle.std.specs.Prelude.{◌≡◌};
ghost use Rattle.capture.specs.declared.capture_fault.CaptureFault.TheVariants.{OutOfMemory};

use std::alloc::AllocError;
use thiserror::Error;

/// The most requests that may be started in one round: the most that a cap of a recording says.
pub const MAX_IN_ROUND: u32 = 65_535;

/// Why there is no recording of a capture.
#[derive(Clone, Copy, Debug, Error)]
pub enum CaptureFault {
    /// The request of this number, from 0 on in the order given, has a priority above 1279.
    #[error("request {0}: bad priority")]
    BadPriority(usize),
    /// The request of this number was started before it arrived.
    #[error("request {0}: started before it arrived")]
    StartedEarly(usize),
    /// The request of this number was completed before it was started.
    #[error("request {0}: completed before it was started")]
    EndedEarly(usize),
    /// No request was started.
    #[error("nothing was started")]
    NothingStarted,
    /// So many requests were started: more than 1,048,576.
    #[error("{0} requests were started, and a recording has at most 1,048,576")]
    TooManyRequests(usize),
    /// The last start is in this round, after round 65,535.
    #[error("there are {0} rounds, and a recording has at most 65,535")]
    TooManyRounds(u128),
    /// In the round of the first number so many requests were started as the second says: more than 65,535.
    #[error("round {0}: {1} requests were started, and a recording has at most 65,535 in a round")]
    TooManyInRound(u32, u32),
    /// A started request has this device, and the configuration doesn't.
    #[error("device {0}: no such device")]
    NoDevice(u32),
    /// The name of this number, from 0 on, may not come after those before it.
    #[error("name {0}: bad name")]
    BadName(usize),
    /// There is no memory left.
    #[error("out of memory")]
    OutOfMemory,
}

impl From<AllocError> for CaptureFault {
    ghost from_gives = { λ _ e. e ≡ OutOfMemory };

    fn from(_error: AllocError) -> CaptureFault {
        CaptureFault::OutOfMemory
    }
}
