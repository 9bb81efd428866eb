//! Requests that were started, and requests that wait.

/// How a flight ended. Times are nanoseconds.
#[derive(Clone, Copy)]
pub enum End {
    /// It was completed then.
    Completed(u64),
    /// It was put back then, and its slot came free.
    PutBack(u64),
    /// Neither is known.
    Unknown,
}

/// An attempt of a request that was started, and holds a slot from then on. Times are nanoseconds.
#[derive(Clone, Copy)]
pub struct Flight {
    pub start: u64,
    pub end: End,
}

/// A request that waits from its arrival up to before its start. Times are nanoseconds.
#[derive(Clone, Copy)]
pub struct Wait {
    pub arrival: u64,
    pub start: u64,
}
