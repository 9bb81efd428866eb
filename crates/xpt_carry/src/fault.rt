//! Why a transport wasn't carried over.

ghost use Rattle.std.specs.Prelude.{◌≡◌};
ghost use Rattle.xpt_carry.specs.declared.fault.CarryFault.TheVariants.{OutOfMemory};

use event_rules::Refusal;
use std::alloc::AllocError;
use thiserror::Error;

/// Why a transport wasn't carried over: the first cause that holds, but that memory may run out before any is known.
#[derive(Clone, Copy, Debug, PartialEq, Eq, Error)]
pub enum CarryFault {
    /// A command is in flight, so the round isn't at its end.
    #[error("InFlight")]
    InFlight,
    /// A CCB waits for a decision on its error.
    #[error("Undecided")]
    Undecided,
    /// The limits are too narrow for what has to be carried over: this is the cause that refuses the first event that is
    /// refused.
    #[error("{0}")]
    Refused(Refusal),
    /// There is no memory left.
    #[error("out of memory")]
    OutOfMemory,
}

impl From<AllocError> for CarryFault {
    ghost from_gives = { λ _ e. e ≡ OutOfMemory };

    fn from(_error: AllocError) -> CarryFault {
        CarryFault::OutOfMemory
    }
}
