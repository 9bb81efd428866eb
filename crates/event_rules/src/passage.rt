//! A passage of a CCB through its device's queue: a stay with all that the rules ask of it.

use cam_types::Priority;

/// A stay with all that the rules ask of it: one passage of a CCB through its device's queue, from a submit or a requeue to
/// its send.
#[derive(Clone, Copy, Debug, PartialEq, Eq)]
pub struct Passage {
    /// The number of the CCB.
    pub ccb: u32,
    /// How many stays of the CCB began before it.
    pub attempt: u32,
    /// The number of the CCB's device.
    pub device: u32,
    /// The CCB's priority.
    pub priority: Priority,
    /// The round in which it enters the queue.
    pub arrival: u32,
    /// Whether a requeue began it, and not a submit.
    pub requeued: bool,
    /// The place of the event that began it.
    pub place: u32,
}
