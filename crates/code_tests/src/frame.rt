//! A transport of one adapter, one device and one lane, each of one opening.

ghost use Rattle.std.specs.Prelude.{◌≡◌, [], IfOk};

use cam_types::{Config, Device, Limits};
use std::alloc::Global;
use std::sync::ledger::{Blank, Ledger};
use std::test::Fail;
use xpt_lock::SharedXpt;
use xpt_state::Xpt;

const DEVICE: Device = Device {
    bus: 0,
    target: 1,
    lun: 0,
    openings: 1,
};

/// The transport under a lock.
pub fn shared<L: Ledger>(alloc: Global, limits: Limits, blank: Blank) -> Result<SharedXpt<L>, Fail>
    requires name { blank.name ≡ L.name }
    requires parts { (blank.parts ≡ L.parts) × (blank.parts ≡ 65) }
{
    Ok(SharedXpt::new(frame(alloc, limits)?, blank))
}

/// The transport without events.
pub fn frame(alloc: Global, limits: Limits) -> Result<Xpt, Fail>
    ensures { IfOk result (λ x. x.events ≡ []) }
{
    let config = Config::new(alloc, &[1], &[DEVICE], &[0])?;
    Ok(Xpt::open(alloc, config, limits)?)
}
