//! What a submit hands in.

use cam_types::Flags;

/// What a driver submitted. The CCB's number is its place among the submissions.
#[derive(Clone, Copy, Debug, PartialEq, Eq)]
pub struct Submission {
    /// The driver.
    pub driver: u8,
    /// The number of its device.
    pub device: u32,
    /// Its priority: the smaller number is the more urgent.
    pub priority: u32,
    /// How many counted requeues it may have.
    pub retries: u32,
    /// What it asks of its device's freezes.
    pub flags: Flags,
}
