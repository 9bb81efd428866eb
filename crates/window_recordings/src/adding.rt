//! What a window has of the recording, added to a recorder.

ghost use Rattle.std.specs.Prelude.{◌≡◌, ◌-◌, ◌<◌, ◌≤◌, [], ◌∷◌, ◌++◌, true, None, length, OnOk, IfOk};
ghost use Rattle.recording_file.specs.Recorded.{is_done_right, request_cause};
ghost use Rattle.recording_file.specs.declared.limits.TheConstants.{MAX_REQUESTS};
ghost use Rattle.window_recordings.specs.Windows.{first_caps, first_requests, second_caps, second_requests};

use crate::moved::{first_cap, first_request, second_cap, second_request};
use recording_file::{Name, Recorder, Recording, Request, RequestError};
use std::alloc::{AllocError, Global};

/// A recorder of so many rounds, with what the recording has beside caps and requests.
///
/// # Errors
///
/// `AllocError` if no memory is left.
pub(crate) fn begun(
    alloc: Global,
    recording: &Recording,
    rounds: u32,
) -> Result<Recorder, AllocError>
    requires some { 1 ≤ rounds }
    requires few { rounds ≤ recording.now.rounds }
    ensures { IfOk result (λ recorder. recorder ≡ record recording.now { rounds = rounds; caps = []; requests = [] }) }
{
    let config = recording.config().copy(alloc)?;
    let mut recorder = Recorder::new(
        alloc,
        recording.unit(),
        rounds,
        config,
        recording.completions(),
    );
    add_names(alloc, &mut recorder, recording)?;
    Ok(recorder)
}

// Adds the recording's names.
fn add_names(
    alloc: Global,
    recorder: &mut Recorder,
    recording: &Recording,
) -> Result<(), AllocError>
    requires none { recorder.old.names ≡ [] }
    requires config { recorder.old.config ≡ recording.now.config }
    ensures { OnOk result (recorder.new ≡ record recorder.old { names = recording.now.names }) }
{
    for name in recording.names() {
        let Some(copy) = Name::new(alloc, name.kind(), name.number(), name.text().as_bytes())?
        else {
            unreachable!()
        };
        recorder.add_name(copy)?;
    }
    Ok(())
}

/// Adds the caps of the window up to a round.
///
/// # Errors
///
/// `AllocError` if no memory is left.
pub(crate) fn add_first_caps(
    recorder: &mut Recorder,
    recording: &Recording,
    round: u32,
) -> Result<(), AllocError>
    requires some { 1 ≤ round }
    requires begun { recorder.old ≡ record recording.now { rounds = round; caps = []; requests = [] } }
    ensures { OnOk result (recorder.new ≡ record recording.now { rounds = round; caps = first_caps round recording.now.caps; requests = [] }) }
{
    for cap in recording.caps() {
        if cap.first <= round {
            recorder.add_cap(first_cap(*cap, round))?;
        }
    }
    Ok(())
}

/// Adds the caps of the window after a round.
///
/// # Errors
///
/// `AllocError` if no memory is left.
pub(crate) fn add_second_caps(
    recorder: &mut Recorder,
    recording: &Recording,
    round: u32,
) -> Result<(), AllocError>
    requires some { round < recording.now.rounds }
    requires begun { recorder.old ≡ record recording.now { rounds = recording.now.rounds - round; caps = []; requests = [] } }
    ensures { OnOk result (recorder.new ≡ record recording.now { rounds = recording.now.rounds - round; caps = second_caps round recording.now.caps; requests = [] }) }
{
    for cap in recording.caps() {
        if round < cap.last {
            recorder.add_cap(second_cap(*cap, round))?;
        }
    }
    Ok(())
}

/// Adds the requests of the window up to a round.
///
/// # Errors
///
/// `AllocError` if no memory is left.
pub(crate) fn add_first_requests(
    alloc: Global,
    recorder: &mut Recorder,
    recording: &Recording,
    round: u32,
) -> Result<(), AllocError>
    requires last { round ≤ recording.now.rounds }
    requires begun { recorder.old ≡ record recording.now { rounds = round; caps = first_caps round recording.now.caps; requests = [] } }
    ensures { OnOk result (recorder.new ≡ record recorder.old { requests = first_requests round recording.now.requests }) }
{
    for request in recording.requests() {
        if request.sent <= round {
            add(alloc, recorder, first_request(*request, round))?;
        }
    }
    Ok(())
}

/// Adds the requests of the window after a round.
///
/// # Errors
///
/// `AllocError` if no memory is left.
pub(crate) fn add_second_requests(
    alloc: Global,
    recorder: &mut Recorder,
    recording: &Recording,
    round: u32,
) -> Result<(), AllocError>
    requires begun { recorder.old ≡ record recording.now { rounds = recording.now.rounds - round; caps = second_caps round recording.now.caps; requests = [] } }
    ensures { OnOk result (recorder.new ≡ record recorder.old { requests = second_requests round recording.now.requests }) }
{
    for request in recording.requests() {
        if round < request.sent {
            add(alloc, recorder, second_request(*request, round))?;
        }
    }
    Ok(())
}

// Adds a request that no cause speaks against.
fn add(alloc: Global, recorder: &mut Recorder, request: Request) -> Result<(), AllocError>
    requires few { length recorder.old.requests < MAX_REQUESTS }
    requires done { is_done_right recorder.old.completions request ≡ true }
    requires legal { request_cause recorder.old.rounds recorder.old.config recorder.old.caps (recorder.old.requests, request) ≡ None }
    ensures { OnOk result (recorder.new ≡ record recorder.old { requests = recorder.old.requests ++ request ∷ [] }) }
{
    match recorder.add_request(alloc, request) {
        Ok(()) => Ok(()),
        Err(RequestError::OutOfMemory) => Err(AllocError),
        Err(RequestError::Illegal(_)) => unreachable!(),
    }
}
