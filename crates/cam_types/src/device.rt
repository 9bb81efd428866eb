//! A device's address and openings.

/// A device, by its address and how many commands it takes at once.
#[derive(Clone, Copy, Debug, PartialEq, Eq)]
pub struct Device {
    /// The number of its adapter.
    pub bus: u8,
    /// Its target.
    pub target: u16,
    /// Its logical unit, at most 16,383.
    pub lun: u16,
    /// How many of its commands may be sent in a round, 1 to 255.
    pub openings: u32,
}
