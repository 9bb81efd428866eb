//! A device as its record spells it.

ghost use Rattle.std.specs.Prelude.{◌≡◌};
ghost use Rattle.record_text.specs.ConfigRows.{clamped};

use cam_types::Device;

/// A device as a record spells it. Its bus may be any number.
#[derive(Clone, Copy)]
pub struct DeviceRow {
    pub bus: u32,
    pub target: u16,
    pub lun: u16,
    pub openings: u32,
}

impl DeviceRow {
    /// The device. A bus above 255 stands as 255, which names no adapter either.
    pub fn device(self) -> Device
        ensures { result ≡ clamped self }
    {
        Device {
            bus: self.bus.min(255) as u8,
            target: self.target,
            lun: self.lun,
            openings: self.openings,
        }
    }
}
