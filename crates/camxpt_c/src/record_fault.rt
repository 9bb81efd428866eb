//! What is wrong with a recording that C hands in.

/// Why there is no recording of what C hands in.
#[derive(Clone, Copy)]
pub(crate) enum RecordFault {
    /// The answer is this code.
    Call(i32),
    /// The answer is this code, for the cap or the request of this number.
    Item(i32, usize),
    /// There is no memory left.
    OutOfMemory,
}
