//! What a net knows of one stay.

use event_rules::Stay;

/// A stay, with its window and weight, and where it was sent.
#[derive(Clone, Copy, Debug)]
pub struct StayRow {
    /// Its CCB and try.
    pub stay: Stay,
    /// The number of its device.
    pub device: u32,
    /// The first round of its window.
    pub arrival: u32,
    /// The last round of its window.
    pub last: u32,
    /// What a round of its waiting costs.
    pub weight: u32,
    /// The round in which it was sent.
    pub live: u32,
}
