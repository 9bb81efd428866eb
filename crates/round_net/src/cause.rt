//! Why a stay waited in a round.

ghost use Rattle.std.specs.Prelude.{◌≡◌, ◌<◌, length};
ghost use Rattle.round_net.specs.Ends.{cause_at};

use cam_types::Config;
use xpt_core::Queues;

/// Why a stay waited in a round. In a history it is, of those that aren't `stopped`, the first that held where the round
/// ended, just before its tick. In a recording it is the first of the last seven that held in the round.
#[derive(Clone, Copy, Debug, PartialEq, Eq)]
pub enum WaitCause {
    /// A command of its device had failed and waited for a decision, which froze the device.
    Error,
    /// A caller had frozen the device.
    Caller,
    /// A caller had frozen the adapter.
    AdapterFrozen,
    /// The device took nothing in the round.
    DeviceStopped,
    /// The adapter took nothing in the round.
    AdapterStopped,
    /// The adapter's link took nothing in the round.
    LinkStopped,
    /// The device had no opening left in the round.
    DeviceFull,
    /// The adapter had no opening left in the round.
    AdapterFull,
    /// The adapter's link had no opening left in the round.
    LinkFull,
    /// None of these: it or another stay could have been sent, and no lane asked.
    NotAsked,
}

impl WaitCause {
    ghost use Rattle.round_net.specs.Ends.{can_hold, is_cause};

    /// Whether the two are the same.
    pub fn is(self, other: WaitCause) -> bool
        ensures { result ≡ is_cause self other }
    {
        self == other
    }

    /// Whether the configuration lets the cause hold: links are stopped or full only where there are links.
    pub fn can_hold(self, config: &Config) -> bool
        ensures { result ≡ can_hold self config.now }
    {
        match self {
            WaitCause::LinkStopped | WaitCause::LinkFull => !config.links().is_empty(),
            _ => true,
        }
    }
}

/// What holds up the stays of the device at this place.
#[tactic(auto, unfolding(crate::specs::Ends::cause_at))]
pub(crate) fn cause_at(replay: &Queues, device: u32) -> WaitCause
    requires { device < length replay.now.config.devices }
    ensures { result ≡ cause_at replay.now.config replay.now.events device }
{
    let devices = replay.devices();
    let Some(adapter) = devices.config().device_adapter(device) else {
        unreachable!()
    };
    if devices.freeze_count(device) > u64::from(devices.caller_count(device)) {
        WaitCause::Error
    } else if devices.caller_count(device) > 0 {
        WaitCause::Caller
    } else if replay.is_frozen(adapter) {
        WaitCause::AdapterFrozen
    } else if !devices.has_opening(device) {
        WaitCause::DeviceFull
    } else if !replay.has_opening(adapter) {
        WaitCause::AdapterFull
    } else if !replay.link_has_opening(adapter) {
        WaitCause::LinkFull
    } else {
        WaitCause::NotAsked
    }
}
