//! What calls of a shared transport fail by.

ghost use Rattle.std.specs.Prelude.{◌≡◌};
ghost use Rattle.xpt_lock.specs.declared.fault.GatherFault.TheVariants as gathers;
ghost use Rattle.xpt_lock.specs.declared.fault.SharedFault.TheVariants.{OutOfMemory, Refused};

use crate::receipt::Receipt;
use event_rules::Refusal;
use std::alloc::AllocError;
use thiserror::Error;

/// There are 64 seats already.
#[derive(Clone, Copy, Debug, PartialEq, Eq, Error)]
#[error("no seat is left")]
pub struct SeatsFull;

/// Why a call of a seat made no event.
#[derive(Clone, Copy, Debug, PartialEq, Eq, Error)]
pub enum SharedFault {
    /// There is no memory for one more receipt. The transport wasn't asked.
    #[error("out of memory")]
    OutOfMemory,
    /// The transport refused the call's event.
    #[error("{0}")]
    Refused(Refusal),
}

impl From<AllocError> for SharedFault {
    ghost from_gives = { λ _ e. e ≡ OutOfMemory };

    fn from(_error: AllocError) -> SharedFault {
        SharedFault::OutOfMemory
    }
}

impl From<Refusal> for SharedFault {
    ghost from_gives = { λ why e. e ≡ Refused why };

    fn from(why: Refusal) -> SharedFault {
        SharedFault::Refused(why)
    }
}

/// Why no history was gathered.
#[derive(Clone, Copy, Debug, PartialEq, Eq, Error)]
pub enum GatherFault {
    /// The first receipt, by seat and then by its order, whose place doesn't hold its event, or doesn't rise within its seat,
    /// or was named before, or whose reply isn't what the transport answers to that event there.
    #[error("a receipt doesn't fit the history")]
    Mismatch(Receipt),
    /// The first place that no receipt names.
    #[error("no receipt names place {0}")]
    Unnamed(u32),
    /// There is no memory left.
    #[error("out of memory")]
    OutOfMemory,
}

impl From<AllocError> for GatherFault {
    ghost from_gives = { λ _ e. e ≡ gathers.OutOfMemory };

    fn from(_error: AllocError) -> GatherFault {
        GatherFault::OutOfMemory
    }
}
