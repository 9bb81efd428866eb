//! What the check of a schedule and its prices answers.

use event_rules::Stay;

/// What is wrong with a stay's place in a schedule.
#[derive(Clone, Copy, Debug, PartialEq, Eq)]
pub enum Cause {
    /// It lies before its arrival.
    Early,
    /// It lies after the last round of its window.
    Late,
    /// Of the stays up to it more are of its device and in its round than the device takes.
    DeviceFull,
    /// Of the stays up to it more are of its adapter and in its round than the adapter takes.
    AdapterFull,
    /// Of the stays up to it more are of its link and in its round than the link takes.
    LinkFull,
}

/// What a schedule and prices come to.
#[derive(Clone, Copy, Debug, PartialEq, Eq)]
pub enum Verdict {
    /// No admissible schedule costs less, as the prices prove.
    Proved,
    /// The schedule is admissible, but costs so much more than the prices are worth.
    Gap(u128),
    /// The schedule isn't admissible: the first stay, in creation order, with whose place something is wrong.
    NotAdmissible(Stay, Cause),
}
