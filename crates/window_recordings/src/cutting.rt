//! A recording cut in two.

ghost use Rattle.std.specs.Prelude.{◌≡◌, ◌<◌, ◌≤◌, IfOk};
ghost use Rattle.window_recordings.specs.Windows.{first_window, second_window, carried};

use crate::carrying::carried;
use crate::window::{first_window, second_window};
use recording_file::Recording;
use std::alloc::{AllocError, Global};

/// A recording that was cut in two after a round.
#[derive(Drop)]
pub struct TwoWindows {
    /// What was started up to that round.
    pub first: Recording,
    /// What was started after it, in rounds that are numbered from 1.
    pub second: Recording,
    /// What the requests of the second window waited before it, in weighted rounds.
    pub carried: u64,
}

/// Cuts a recording in two after a round, 1 to the one before its last.
///
/// # Errors
///
/// `AllocError` if no memory is left.
pub fn cut(alloc: Global, recording: &Recording, round: u32) -> Result<TwoWindows, AllocError>
    requires some { 1 ≤ round }
    requires last { round < recording.now.rounds }
    ensures first { IfOk result (λ windows. windows.first ≡ first_window round recording.now) }
    ensures second { IfOk result (λ windows. windows.second ≡ second_window round recording.now) }
    ensures carried { IfOk result (λ windows. windows.carried ≡ carried round recording.now) }
{
    Ok(TwoWindows {
        first: first_window(alloc, recording, round)?,
        second: second_window(alloc, recording, round)?,
        carried: carried(recording, round),
    })
}
