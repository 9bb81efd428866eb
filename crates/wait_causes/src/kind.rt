//! What kind of input is explained.

use round_net::WaitCause;

/// What kind of input is explained.
#[derive(Clone, Copy)]
pub enum InputKind {
    /// A trace of this transport: it says who froze what.
    Trace,
    /// A recording of any scheduler: it says how many each device, adapter and link took.
    Recording,
}

impl InputKind {
    ghost use Rattle.std.specs.Prelude.{◌≡◌};
    ghost use Rattle.wait_causes.specs.Parts.{causes_of};

    /// The causes of such an input, in the order in which they are tested.
    pub fn causes(self) -> [WaitCause; 7]
        ensures { result ≡ causes_of self }
    {
        match self {
            InputKind::Trace => [
                WaitCause::Error,
                WaitCause::Caller,
                WaitCause::AdapterFrozen,
                WaitCause::DeviceFull,
                WaitCause::AdapterFull,
                WaitCause::LinkFull,
                WaitCause::NotAsked,
            ],
            InputKind::Recording => [
                WaitCause::DeviceStopped,
                WaitCause::AdapterStopped,
                WaitCause::LinkStopped,
                WaitCause::DeviceFull,
                WaitCause::AdapterFull,
                WaitCause::LinkFull,
                WaitCause::NotAsked,
            ],
        }
    }
}
