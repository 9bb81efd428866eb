//! A request, and when it was started.

/// A request that some scheduler started.
#[derive(Clone, Copy, Debug, PartialEq, Eq)]
pub struct Request {
    /// The number of the driver that asked for it.
    pub driver: u8,
    /// The number of its device.
    pub device: u32,
    /// Its priority, at most 1279.
    pub priority: u32,
    /// The round in which it arrived, from 1 on.
    pub arrival: u32,
    /// The last round in which it could have been started. None stands for the last round of the recording.
    pub last: Option<u32>,
    /// The round in which it was started.
    pub sent: u32,
    /// The round in which it was completed, at or after `sent`. It may be after the last round. None if that isn't known.
    pub done: Option<u32>,
}
