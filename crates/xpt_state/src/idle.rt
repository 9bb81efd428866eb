//! Why a lane has nothing to send.

ghost use Rattle.std.specs.Prelude.{◌≡◌};
ghost use Rattle.xpt_state.specs.Idle.{idle_by};

use thiserror::Error;

/// Why a lane has nothing to send: the first of these that holds.
#[derive(Clone, Copy, Debug, PartialEq, Eq, Error)]
pub enum Idle {
    /// No stay is queued at a device of the lane's adapter.
    #[error("Empty")]
    Empty,
    /// A freeze of the adapter holds.
    #[error("AdapterFrozen")]
    AdapterFrozen,
    /// The adapter's openings are used in this round.
    #[error("AdapterBusy")]
    AdapterBusy,
    /// Each device of the adapter with a queued stay is frozen, or its openings are used in this round.
    #[error("DevicesHeld")]
    DevicesHeld,
}

impl Idle {
    /// Why a lane without a next stay is idle: whether a stay is queued at a device of its adapter, whether no freeze of the
    /// adapter holds, and whether an opening of it is left.
    pub(crate) fn by(queued: bool, free: bool, left: bool) -> Idle
        ensures { result ≡ idle_by queued free left }
    {
        if !queued {
            Idle::Empty
        } else if !free {
            Idle::AdapterFrozen
        } else if !left {
            Idle::AdapterBusy
        } else {
            Idle::DevicesHeld
        }
    }
}
