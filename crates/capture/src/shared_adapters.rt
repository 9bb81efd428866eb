//! The openings of adapters that are unknown.

ghost use Rattle.std.specs.Prelude.{◌≡◌, ◌≤◌};
ghost use Rattle.cam_types.specs.declared.limits.TheConstants.{MAX_OPENINGS};
ghost use Rattle.capture.specs.Captured.{shared_openings};

use cam_types::{Device, MAX_OPENINGS};

/// The openings of an adapter that are unknown, 1 to 255: those of its devices together, and 255 if they are more.
pub fn shared_openings(devices: &[Device], adapter: u8) -> u32
    ensures same { result ≡ shared_openings devices.now adapter }
    ensures some { 1 ≤ result }
    ensures most { result ≤ MAX_OPENINGS }
{
    let mut sum: u32 = 0;
    for device in devices {
        if device.bus == adapter {
            sum = MAX_OPENINGS.min(sum.saturating_add(device.openings));
        }
    }
    sum.max(1)
}
