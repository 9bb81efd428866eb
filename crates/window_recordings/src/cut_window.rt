//! A window that was cut off a capture.

use capture_windows::Window;
use recording_file::{Recording, Span};

/// How far the next window goes.
#[derive(Clone, Copy)]
pub enum Ending {
    /// All of its rounds.
    Whole,
    /// At most up to this time.
    Before(u64),
    /// Up to the last start: nothing comes after it.
    LastStart,
}

/// A window that was cut off a capture.
#[derive(Drop)]
pub struct Cut {
    /// Its number, from 1 on.
    pub number: u64,
    /// How long a round is.
    pub round: Span,
    /// What was taken for it.
    pub window: Window,
}

/// A window of a capture.
#[derive(Drop)]
pub struct CutWindow {
    /// Its number, from 1 on.
    pub number: u64,
    /// When its round 1 begins, in nanoseconds of the capture's clock.
    pub from: u64,
    /// When its last round is over.
    pub until: u64,
    /// How long a round is.
    pub round: Span,
    /// How many rounds there are.
    pub rounds: u32,
    /// How many requests were started in it.
    pub requests: usize,
    /// What these waited before it, in weighted rounds.
    pub carried: u64,
    /// Its recording; none if nothing was started in it.
    pub recording: Option<Recording>,
}
