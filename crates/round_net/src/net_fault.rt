//! Why no net was made of a history.

ghost use Rattle.std.specs.Prelude.{◌≡◌};
ghost use Rattle.round_net.specs.declared.net_fault.NetFault.TheVariants.{OutOfMemory};

use event_rules::Stay;
use std::alloc::AllocError;
use thiserror::Error;

/// Why no net was made of a history.
#[derive(Clone, Copy, Debug, PartialEq, Eq, Error)]
pub enum NetFault {
    /// The history isn't complete: this is the first of its stays, in creation order, that has no send.
    #[error("unsent ccb {} try {}", .0.ccb, .0.attempt)]
    Unsent(Stay),
    /// There is no memory left.
    #[error("out of memory")]
    OutOfMemory,
}

impl From<AllocError> for NetFault {
    ghost from_gives = { λ _ e. e ≡ OutOfMemory };

    fn from(_error: AllocError) -> NetFault {
        NetFault::OutOfMemory
    }
}
