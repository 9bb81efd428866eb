//! Why no slots are found.

ghost use Rattle.std.specs.Prelude.{◌≡◌};
ghost use Rattle.slots.specs.declared.slots_fault.SlotsFault.TheVariants.{OutOfMemory};

use std::alloc::AllocError;
use thiserror::Error;

/// Why no slots are found.
#[derive(Clone, Copy, Debug, Error)]
pub enum SlotsFault {
    /// The depth that was given is below this number, which were in flight at one time.
    #[error("{0} were in flight")]
    TooFew(u32),
    /// There is no memory left.
    #[error("out of memory")]
    OutOfMemory,
}

impl From<AllocError> for SlotsFault {
    ghost from_gives = { λ _ e. e ≡ OutOfMemory };

    fn from(_error: AllocError) -> SlotsFault {
        SlotsFault::OutOfMemory
    }
}
