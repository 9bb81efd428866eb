//! A recording by another schedule: the same requests, started in other rounds.

ghost use Rattle.std.specs.Prelude.{◌≡◌, ◌≤◌, [], true, length, take, slice_index, OnOk, IfOk};
ghost use Rattle.recording_file.specs.Recorded.{IsKept};
ghost use Rattle.conversions.specs.Rescheduled.{moved, moved_to, rescheduled, begun};

use recording_file::{Cap, Name, Recorder, Recording, Request, RequestError};
use round_net::Schedule;
use std::alloc::{AllocError, Global};

/// The recording with each request started in its round of the schedule. A completion is as long after the start as it was, up to
/// the latest that a recording may have.
///
/// # Errors
///
/// `Illegal` if a start breaks a rule of recordings: it is outside of its window, or a device, an adapter or a link takes more than its
/// cap. `OutOfMemory` if no memory is left.
pub fn rescheduled(
    alloc: Global,
    recording: &Recording,
    schedule: &Schedule,
) -> Result<Recording, RequestError>
    requires { length schedule.now ≡ length recording.now.requests }
    ensures { IfOk result (λ r. r ≡ rescheduled recording.now schedule.now) }
{
    let mut recorder = begun(alloc, recording)?;
    add_names(alloc, &mut recorder, recording)?;
    add_caps(&mut recorder, recording)?;
    add_requests(alloc, &mut recorder, recording, schedule)?;
    Ok(recorder.finish())
}

// A recorder of the recording's rounds and configuration, with nothing in it.
fn begun(alloc: Global, recording: &Recording) -> Result<Recorder, AllocError>
    ensures { IfOk result (λ recorder. recorder ≡ begun recording.now) }
{
    let (unit, rounds) = (recording.unit(), recording.rounds());
    let config = recording.config().copy(alloc)?;
    Ok(Recorder::new(alloc, unit, rounds, config, recording.completions()))
}

// Adds the recording's names.
fn add_names(
    alloc: Global,
    recorder: &mut Recorder,
    recording: &Recording,
) -> Result<(), AllocError>
    requires { recorder.old ≡ begun recording.now }
    ensures { OnOk result (recorder.new ≡ record (begun recording.now) { names = recording.now.names }) }
{
    for name in recording.names() {
        let Some(copy) = Name::new(alloc, name.kind(), name.number(), name.text().as_bytes())?
        else {
            unreachable!()
        };
        recorder.add_name(copy)?;
    }
    Ok(())
}

// Adds the recording's caps.
fn add_caps(recorder: &mut Recorder, recording: &Recording) -> Result<(), AllocError>
    requires { recorder.old ≡ record (begun recording.now) { names = recording.now.names } }
    ensures { OnOk result (recorder.new ≡ record recording.now { requests = [] }) }
{
    for cap in recording.caps() {
        recorder.add_cap(*cap)?;
    }
    Ok(())
}

// Adds the recording's requests, each started in its round of the schedule.
fn add_requests(
    alloc: Global,
    recorder: &mut Recorder,
    recording: &Recording,
    schedule: &Schedule,
) -> Result<(), RequestError>
    requires none { recorder.old ≡ record recording.now { requests = [] } }
    requires long { length schedule.now ≡ length recording.now.requests }
    ensures { OnOk result (recorder.new ≡ rescheduled recording.now schedule.now) }
{
    for (number, request) in recording.requests().iter().enumerate() {
        let round = schedule.round(number as u32);
        recorder.add_request(alloc, moved_to(*request, round))?;
    }
    Ok(())
}

// The request started in another round.
fn moved_to(request: Request, round: u32) -> Request
    ensures { result ≡ moved_to request round }
{
    Request {
        sent: round,
        done: match request.done {
            Some(done) => Some(round.saturating_add(done.saturating_sub(request.sent))),
            None => None,
        },
        ..request
    }
}
