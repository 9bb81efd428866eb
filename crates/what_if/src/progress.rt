//! How far a table of what-if rows is.

/// Who is told how far a table is.
pub trait Progress {
    /// A row is made.
    fn row_made(&self);
}

/// Nobody is.
#[derive(Clone, Copy)]
pub struct NoProgress;

impl Progress for NoProgress {
    fn row_made(&self) {}
}
