//! The script of a recording.

ghost use Rattle.std.specs.Prelude.{◌≡◌, None, [], map, replicate, IfOk, MatchResult};
ghost use Rattle.conversions.specs.Faults.{IsFault};
ghost use Rattle.conversions.specs.RecordingScript.{recording_fault, scripted_recording, size_fault};

use crate::arrivals_script::script_by;
use crate::fault::ScriptFault;
use crate::openings::config_of;
use crate::requested::requested;
use cam_types::{MAX_ROUNDS, Outcome};
use recording_file::Recording;
use std::alloc::{AllocError, Global};
use trace_file::{MAX_ROWS, Script};

/// The script that asks for what a recording asked for: each request is a submit of its driver at its device, in the round in
/// which it arrived, with its priority, without retries and flags. Of a round they stand in the order of the recording.
///
/// The configuration is the recording's, with a lane on each adapter. The openings of a device, an adapter or a link are the
/// greatest cap that it has in a round, and 1 if it takes nothing in any. Each command completes plainly. What the recording
/// says of the rounds in which less was taken, and until when a request could have been started, is left out, and so are the
/// names and the length of a round.
///
/// # Errors
///
/// The first of these, in this order: `Rounds`, if it has more than 512; `Requests`, if it has more than 4,096; `Device`,
/// `Adapter` and `Link`, if one takes more than 255 in a round; `Driver`, if the first driver beyond 7 is this one, by arrival;
/// `Steps`, if submits and pauses are more than 4,096. `OutOfMemory` if no memory is left.
pub fn script_of_recording(alloc: Global, recording: &Recording) -> Result<Script, ScriptFault>
    ensures script { IfOk result (λ s. s ≡ scripted_recording recording.now) }
    ensures fault { MatchResult result
        (λ _. recording_fault recording.now ≡ None)
        (λ fault. IsFault (recording_fault recording.now) fault) }
{
    if let Some(fault) = size_fault(recording) {
        return Err(fault);
    }
    let config = config_of(alloc, recording)?;
    let all = requested(alloc, recording.requests())?;
    let answers = no_answers(alloc, recording.config().adapters().len())?;
    let script = script_by(alloc, config, &all, answers)?;
    Ok(script)
}

// More rounds or requests than a script may have.
#[tactic(auto, unfolding(crate::specs::RecordingScript::size_fault))]
fn size_fault(recording: &Recording) -> Option<ScriptFault>
    ensures { result ≡ size_fault recording.now }
{
    let requests = recording.requests().len();
    if recording.rounds() > MAX_ROUNDS {
        Some(ScriptFault::Rounds(recording.rounds()))
    } else if requests > MAX_ROWS as usize {
        Some(ScriptFault::Requests(requests))
    } else {
        None
    }
}

// That many lanes without answers.
fn no_answers(alloc: Global, lanes: usize) -> Result<Vec<Vec<Outcome>>, AllocError>
    ensures { IfOk result (λ answers. map (λ l. l.items) answers.items ≡ replicate lanes []) }
{
    let mut answers = Vec::with_capacity(alloc, lanes)?;
    for _ in 0..lanes {
        answers.push(Vec::new(alloc))?;
    }
    Ok(answers)
}
