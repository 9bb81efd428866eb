//! Rounds in a row at whose ends a device or an adapter was frozen.

ghost use Rattle.std.specs.Prelude.{◌≡◌};
ghost use Rattle.wait_causes.specs.Freezes.{cause_of, grouping_of};

use crate::table::Grouping;
use round_net::{FreezeKind, WaitCause};

/// Rounds in a row at whose ends a device or an adapter was frozen.
#[derive(Clone, Copy)]
pub struct Freeze {
    /// What was frozen, and by whom.
    pub kind: FreezeKind,
    /// The number of the device, or of the adapter if the kind is `Adapter`.
    pub number: u32,
    /// The first of the rounds, from 1.
    pub first: u32,
    /// The last of the rounds.
    pub last: u32,
    /// The weighted rounds of these that stays waited there for this cause. A round that a stay waited for another cause
    /// costs nothing, as one of a caller's freeze under an error's.
    pub cost: u64,
}

// Why stays wait for a freeze of this kind.
pub(crate) fn cause_of(kind: FreezeKind) -> WaitCause
    ensures { result ≡ cause_of kind }
{
    match kind {
        FreezeKind::Error => WaitCause::Error,
        FreezeKind::Caller => WaitCause::Caller,
        FreezeKind::Adapter => WaitCause::AdapterFrozen,
    }
}

// Whose stays wait for it.
pub(crate) fn grouping_of(kind: FreezeKind) -> Grouping
    ensures { result ≡ grouping_of kind }
{
    match kind {
        FreezeKind::Error | FreezeKind::Caller => Grouping::Device,
        FreezeKind::Adapter => Grouping::Adapter,
    }
}
