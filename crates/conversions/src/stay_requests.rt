//! The stays of a history as requests.

ghost use Rattle.std.specs.Prelude.{◌≡◌, ◌∷◌, ◌++◌, [], ◌<◌, true, None, OnOk, length};
ghost use Rattle.event_rules.specs.Stays.{unsent};
ghost use Rattle.recording_file.specs.Recorded.{is_done_right, request_cause};
ghost use Rattle.recording_file.specs.declared.limits.TheConstants.{MAX_REQUESTS};
ghost use Rattle.round_net.specs.Caps.{resource_count};
ghost use Rattle.conversions.specs.Recorded.{caps_of, recorded_with, recorded_of};
ghost use Rattle.conversions.specs.Requests.{driver_of, last_by, unless_end, request_by};

use crate::submissions::submissions;
use cam_event::History;
use event_rules::Submission;
use recording_file::{Recorder, Request, RequestError};
use std::alloc::{AllocError, Global};
use xpt_core::StayRecord;

/// Adds a request for each stay, in creation order. It fails only if there is no memory.
pub fn add_requests(
    alloc: Global,
    recorder: &mut Recorder,
    history: &History,
) -> Result<(), AllocError>
    requires complete { unsent history.now.events ≡ None }
    requires none { recorder.old ≡ recorded_with history.now (caps_of history.now.config history.now.events (resource_count history.now.config)) [] }
    ensures { OnOk result (recorder.new ≡ recorded_of history.now) }
{
    let submitted = submissions(alloc, history.events())?;
    let rounds = recorder.rounds();
    for stay in history.stays() {
        add_request(alloc, recorder, request_of(&submitted, rounds, stay))?;
    }
    Ok(())
}

// Adds a request that no cause speaks against.
fn add_request(alloc: Global, recorder: &mut Recorder, request: Request) -> Result<(), AllocError>
    requires few { length recorder.old.requests < MAX_REQUESTS }
    requires done { is_done_right recorder.old.completions request ≡ true }
    requires fits { request_cause recorder.old.rounds recorder.old.config recorder.old.caps (recorder.old.requests, request) ≡ None }
    ensures { OnOk result (recorder.new ≡ record recorder.old { requests = recorder.old.requests ++ request ∷ [] }) }
{
    match recorder.add_request(alloc, request) {
        Ok(()) => Ok(()),
        Err(RequestError::OutOfMemory) => Err(AllocError),
        Err(RequestError::Illegal(_)) => unreachable!(),
    }
}

// The request of a stay of a history of that many rounds, in which this was submitted.
fn request_of(submitted: &[Submission], rounds: u32, kept: &StayRecord) -> Request
    ensures { result ≡ request_by submitted.now rounds kept.now }
{
    let stay = &kept.stay;
    Request {
        driver: driver_of(submitted, stay.ccb),
        device: stay.device,
        priority: stay.priority.number(),
        arrival: stay.arrival,
        last: unless_end(rounds, last_round(kept, rounds)),
        sent: kept.sent.unwrap_or(rounds),
        done: None,
    }
}

// The driver of a CCB, and 0 if there is no such CCB.
fn driver_of(submitted: &[Submission], ccb: u32) -> u8
    ensures { result ≡ driver_of submitted.now ccb }
{
    match submitted.get(ccb as usize) {
        Some(submission) => submission.driver,
        None => 0,
    }
}

// The last round of a stay: the one before its CCB's next stay arrives, or else the last of all.
fn last_round(kept: &StayRecord, rounds: u32) -> u32
    ensures { result ≡ last_by rounds kept.now }
{
    match kept.next_arrival {
        Some(arrival) => arrival.saturating_sub(1),
        None => rounds,
    }
}

// A last round as a request has it: none where it is the last of all.
fn unless_end(rounds: u32, last: u32) -> Option<u32>
    ensures { result ≡ unless_end rounds last }
{
    if last == rounds { None } else { Some(last) }
}
