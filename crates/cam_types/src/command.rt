//! What an adapter gets to serve.

/// A command that is sent to a device.
#[derive(Clone, Copy, Debug, PartialEq, Eq)]
pub struct Command {
    /// The number of its CCB: how many were submitted before it.
    pub ccb: u32,
    /// The number of the CCB's earlier stays.
    pub attempt: u32,
    /// Who submitted the CCB.
    pub driver: u8,
    /// The number of its device.
    pub device: u32,
    /// Its priority, from 0 to 1279.
    pub priority: u32,
}
