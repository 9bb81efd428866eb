//! The words of each cause.

use crate::cause::WaitCause;

impl WaitCause {
    ghost use Rattle.std.specs.Prelude.{◌≡◌};
    ghost use Rattle.round_net.specs.CauseWords.{cause_words};

    /// The cause in words, as pages and drawings give it.
    pub fn name(self) -> &'static str
        ensures { result.now ≡ cause_words self }
    {
        match self {
            WaitCause::Error => "held by an error",
            WaitCause::Caller => "frozen by a caller",
            WaitCause::AdapterFrozen => "adapter frozen",
            WaitCause::DeviceStopped => "device stopped",
            WaitCause::AdapterStopped => "adapter stopped",
            WaitCause::LinkStopped => "link stopped",
            WaitCause::DeviceFull => "device full",
            WaitCause::AdapterFull => "adapter full",
            WaitCause::LinkFull => "link full",
            WaitCause::NotAsked => "not asked",
        }
    }
}
