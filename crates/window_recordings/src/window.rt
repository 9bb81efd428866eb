//! The windows of a recording.

ghost use Rattle.std.specs.Prelude.{◌≡◌, ◌<◌, ◌≤◌, IfOk};
ghost use Rattle.window_recordings.specs.Windows.{first_window, second_window};

use crate::adding::{
    add_first_caps, add_first_requests, add_second_caps, add_second_requests, begun,
};
use recording_file::Recording;
use std::alloc::{AllocError, Global};

/// The window of the rounds up to one, 1 to the recording's last: the requests that were started in it, with what devices,
/// adapters and links took in its rounds. Completions after it aren't known.
///
/// # Errors
///
/// `AllocError` if no memory is left.
pub fn first_window(
    alloc: Global,
    recording: &Recording,
    round: u32,
) -> Result<Recording, AllocError>
    requires some { 1 ≤ round }
    requires last { round ≤ recording.now.rounds }
    ensures { IfOk result (λ window. window ≡ first_window round recording.now) }
{
    let mut recorder = begun(alloc, recording, round)?;
    add_first_caps(&mut recorder, recording, round)?;
    add_first_requests(alloc, &mut recorder, recording, round)?;
    Ok(recorder.finish())
}

/// The window of the rounds after one, which is below the recording's last: the requests that were started in it, with what
/// devices, adapters and links took in its rounds, which are numbered from 1. A request that arrived before it arrives in its
/// first round.
///
/// # Errors
///
/// `AllocError` if no memory is left.
pub fn second_window(
    alloc: Global,
    recording: &Recording,
    round: u32,
) -> Result<Recording, AllocError>
    requires { round < recording.now.rounds }
    ensures { IfOk result (λ window. window ≡ second_window round recording.now) }
{
    let mut recorder = begun(alloc, recording, recording.rounds() - round)?;
    add_second_caps(&mut recorder, recording, round)?;
    add_second_requests(alloc, &mut recorder, recording, round)?;
    Ok(recorder.finish())
}
