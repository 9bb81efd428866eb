//! Why a run on many threads gave nothing.

ghost use Rattle.std.specs.Prelude.{◌≡◌};
ghost use Rattle.sim_worker.specs.declared.fault.LiveFault.TheVariants.{OutOfMemory};

use std::alloc::AllocError;
use thiserror::Error;
use xpt_lock::Receipt;

/// Why a run on many threads gave nothing.
#[derive(Clone, Copy, Debug, PartialEq, Eq, Error)]
pub enum LiveFault {
    /// A receipt that doesn't fit the history, the script or what its port served; or the last event's, if the run as a whole
    /// isn't one of the script.
    #[error("mismatch at {}", .0.at)]
    Mismatch(Receipt),
    /// The first place that no receipt names; 0 if there was no seat left, or no event at all.
    #[error("unnamed place {0}")]
    Unnamed(u32),
    /// A thread couldn't be started. Those that were are joined.
    #[error("no thread")]
    NoThread,
    /// There is no memory left.
    #[error("out of memory")]
    OutOfMemory,
}

impl From<AllocError> for LiveFault {
    ghost from_gives = { λ _ e. e ≡ OutOfMemory };

    fn from(_error: AllocError) -> LiveFault {
        LiveFault::OutOfMemory
    }
}
