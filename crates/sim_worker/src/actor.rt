//! Who acts in a run besides the round keeper.

/// One that acts in a run: a driver, a lane or recovery.
#[derive(Clone, Copy)]
pub(crate) enum Actor {
    /// The driver of this number.
    Driver(usize),
    /// The lane of this number.
    Lane(usize),
    /// Recovery, which decides on what failed.
    Recovery,
}
