//! The name of a stay.

/// A stay by its name: one passage of a CCB through its device's queue, from a submit or a requeue to its send.
#[derive(Clone, Copy, Debug, PartialEq, Eq)]
pub struct Stay {
    /// The number of the CCB.
    pub ccb: u32,
    /// How many stays of the CCB began before it.
    pub attempt: u32,
}
