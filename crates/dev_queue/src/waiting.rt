//! A CCB in a device's queue.

use cam_types::Priority;

/// A CCB that waits to be sent.
#[derive(Clone, Copy, Debug, PartialEq, Eq)]
pub struct Waiting {
    /// The number of the CCB.
    pub ccb: u32,
    /// How urgent it is: the smaller number goes first.
    pub priority: Priority,
}
