//! What may be frozen where a round ends, and by whom.

ghost use Rattle.std.specs.Prelude.{◌≡◌, ◌<◌};
ghost use Rattle.round_net.specs.Ends.{numbers, is_frozen_at};

use cam_types::Config;
use xpt_core::Queues;

/// What was frozen, and by whom.
#[derive(Clone, Copy, Debug, PartialEq, Eq)]
pub enum FreezeKind {
    /// A device by an error: a command of it had failed and waited for a decision.
    Error,
    /// A device by a caller, also where an error's freeze holds at the same time.
    Caller,
    /// An adapter by a caller.
    Adapter,
}

impl FreezeKind {
    /// How many devices there are, or adapters.
    pub fn numbers(self, config: &Config) -> u32
        ensures { result ≡ numbers self config.now }
    {
        match self {
            FreezeKind::Error | FreezeKind::Caller => config.devices().len() as u32,
            FreezeKind::Adapter => config.adapters().len() as u32,
        }
    }

    // Whether the device or the adapter is frozen at this place.
    pub(crate) fn holds(self, replay: &Queues, number: u32) -> bool
        requires { number < numbers self replay.now.config }
        ensures { result ≡ is_frozen_at self replay.now.events number }
    {
        let devices = replay.devices();
        match self {
            FreezeKind::Error => {
                devices.freeze_count(number) > u64::from(devices.caller_count(number))
            }
            FreezeKind::Caller => devices.caller_count(number) > 0,
            FreezeKind::Adapter => replay.is_frozen(number),
        }
    }
}
