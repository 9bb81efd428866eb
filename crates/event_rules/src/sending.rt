//! A send.

/// One send of a CCB that was submitted before.
#[derive(Clone, Copy, Debug, PartialEq, Eq)]
pub struct Sending {
    /// The number of the CCB's device.
    pub device: u32,
    /// Whether the CCB freezes its device's queue by each send.
    pub qfreeze: bool,
    /// The round of the send.
    pub round: u32,
    /// The place of the send.
    pub place: u32,
}
