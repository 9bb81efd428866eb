//! Requests in time.

/// A request of a capture. Its times are nanoseconds of one clock.
#[derive(Clone, Copy)]
pub struct TimedRequest {
    /// When it arrived.
    pub arrival: u64,
    /// When it was started. None if it never was.
    pub started: Option<u64>,
    /// When the next attempt of the same request arrives, if there is one.
    pub retried: Option<u64>,
    /// When it was completed. None if that isn't known, or if it was put back.
    pub completed: Option<u64>,
    /// The number of the driver that asked for it.
    pub driver: u8,
    /// The number of its device.
    pub device: u32,
    /// Its priority, at most 1279.
    pub priority: u32,
}
