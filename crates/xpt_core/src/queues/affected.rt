//! The devices whose readiness an event may change.
ghost use Rattle.std.specs.Prelude.{◌≡◌};
ghost use Rattle.xpt_core.specs.Affected.{affected_by, affected_ccb};

use crate::devices::Devices;
use event_rules::Event;

/// The devices whose readiness an event may change.
#[derive(Clone, Copy)]
pub(crate) enum Affected {
    /// None of them.
    Nothing,
    /// The device of this number.
    One(u32),
    /// Each of them.
    All,
}

/// Which devices an event affects that comes next.
pub(crate) fn affected_by(devices: &Devices, event: &Event) -> Affected
    ensures { result ≡ affected_by devices.now.events event.now }
{
    match *event {
        Event::Submit { device, .. }
        | Event::FreezeDev { device, .. }
        | Event::ReleaseDev { device, .. } => Affected::One(device),
        Event::Send { ccb, .. }
        | Event::Done { ccb, .. }
        | Event::Requeue { ccb }
        | Event::Finish { ccb } => affected_ccb(devices, ccb),
        Event::FreezeSim { .. } | Event::ReleaseSim { .. } | Event::Adjust { .. } => {
            Affected::Nothing
        }
        Event::Tick => Affected::All,
    }
}

// The device that a CCB was submitted to.
fn affected_ccb(devices: &Devices, ccb: u32) -> Affected
    ensures { result ≡ affected_ccb devices.now.events ccb }
{
    match devices.submission(ccb) {
        Some(submission) => Affected::One(submission.device),
        None => Affected::Nothing,
    }
}
