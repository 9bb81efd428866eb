//! What an input says of its stays beside where they were sent.

/// What an input says of its stays beside where they were sent. A trace says neither.
#[derive(Clone, Copy)]
pub struct Known {
    /// The round of each stay at the recorded pace.
    pub pace: bool,
    /// When stays were completed, where that is known.
    pub completions: bool,
}
