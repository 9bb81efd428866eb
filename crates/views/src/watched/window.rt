//! Where a window lies in its capture.

use recording_file::Span;

/// A window, or all of them: from when to when it is, and what is known of it beside what its requests waited.
#[derive(Clone, Copy)]
pub struct Window<'a> {
    /// The number of a window, from 1 on, or how many there are.
    pub number: u64,
    /// Whether these are all windows.
    pub is_all: bool,
    /// When the first window of the capture begins, in nanoseconds of its clock.
    pub origin: u64,
    /// When it begins, in nanoseconds of the capture's clock.
    pub from: u64,
    /// When it is over.
    pub until: u64,
    /// How long a round is.
    pub round: Span,
    /// How many rounds it has.
    pub rounds: u64,
    /// What its requests waited before it, in weighted rounds.
    pub carried: u64,
    /// How many lines were left out of what was read.
    pub refused: u64,
    /// The host's name, if it is given.
    pub host: Option<&'a str>,
}
