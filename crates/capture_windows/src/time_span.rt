//! Spans of time.

/// A span of time, half open, in nanoseconds. That of the first window begins at 0, and that of any other where the one before ends.
#[derive(Clone, Copy)]
pub struct TimeSpan {
    pub from: u64,
    pub until: u64,
}

/// The rounds of a window, in nanoseconds.
#[derive(Clone, Copy)]
pub struct Rounds {
    /// When round 1 begins. In the first window that may be after the window's begin.
    pub begin: u64,
    /// How long a round is: at least 1.
    pub length: u64,
    /// How many rounds there are.
    pub count: u32,
}
