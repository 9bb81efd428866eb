//! The handle of a CCB slot, which goes stale when its value is given back.

/// Names one value of a table: the slot that holds it, and the count of the values taken in before it.
///
/// The number makes it stale for good once its value is given back.
#[derive(Clone, Copy, Debug, PartialEq, Eq)]
pub struct Handle {
    /// Where the value lies.
    pub slot: usize,
    /// How many values were taken in before.
    pub number: u32,
}
