//! Adds caps and requests to a recording in the making.

ghost use Rattle.std.specs.Prelude.{◌≡◌, ◌≢◌, ◌<◌, ◌≤◌, ◌++◌, ◌∷◌, [], true, false, None, Some, map, length, OnOk, IfErr};
ghost use Rattle.cam_types.specs.Lists.{prefixed, first_answer};
ghost use Rattle.recording_file.specs.declared.limits.TheConstants.{MAX_REQUESTS};
ghost use Rattle.camxpt_c.specs.RecordShapes.{cap_of, request_of};
ghost use Rattle.camxpt_c.specs.Recordings.{is_next, cap_fault, fault_at, request_fault, Item, OutOfMemory};
ghost use Rattle.camxpt_c.specs.declared.codes.TheConstants.{E_CAP};

use crate::codes::{E_CAP, E_DONE, cause_code};
use crate::record_fault::RecordFault;
use crate::record_shapes::{CAP_LINK, CamxptCap, CamxptRequest, cap_of, request_of};
use recording_file::{Recorder, RequestError};
use std::alloc::Global;

/// Adds all caps to a recorder without caps and requests, or tells what is wrong with the first that can't be added.
pub(crate) fn add_caps(recorder: &mut Recorder, shapes: &[CamxptCap]) -> Result<(), RecordFault>
    requires no_cap { recorder.old.caps ≡ [] }
    requires no_request { recorder.old.requests ≡ [] }
    ensures made { OnOk result (recorder.new ≡ record recorder.old { caps = map cap_of shapes.now }) }
    ensures ok { OnOk result (first_answer (cap_fault recorder.old.rounds recorder.old.config) (prefixed shapes.now) ≡ None) }
    ensures err { IfErr result (λ e. e ≢ OutOfMemory → first_answer (cap_fault recorder.old.rounds recorder.old.config) (prefixed shapes.now) ≡ Some e) }
{
    for (number, shape) in shapes.iter().enumerate() {
        add_cap(recorder, number, *shape)?;
    }
    Ok(())
}

// Adds the cap of this number after those before it.
fn add_cap(recorder: &mut Recorder, number: usize, shape: CamxptCap) -> Result<(), RecordFault>
    requires { recorder.old.requests ≡ [] }
    ensures made { OnOk result (recorder.new ≡ record recorder.old { caps = recorder.old.caps ++ cap_of shape ∷ [] }) }
    ensures ok { OnOk result (is_next recorder.old.rounds recorder.old.config recorder.old.caps shape ≡ true) }
    ensures bad { IfErr result (λ e. e ≢ OutOfMemory → is_next recorder.old.rounds recorder.old.config recorder.old.caps shape ≡ false) }
    ensures err { IfErr result (λ e. e ≢ OutOfMemory → e ≡ Item E_CAP number) }
{
    if shape.kind > CAP_LINK {
        return Err(RecordFault::Item(E_CAP, number));
    }
    let cap = cap_of(shape);
    if !recorder.takes_cap(cap) {
        return Err(RecordFault::Item(E_CAP, number));
    }
    match recorder.add_cap(cap) {
        Ok(()) => Ok(()),
        Err(_) => Err(RecordFault::OutOfMemory),
    }
}

/// Adds all requests to a recorder without requests, or tells what is wrong with the first that can't be added.
pub(crate) fn add_requests(
    alloc: Global,
    recorder: &mut Recorder,
    shapes: &[CamxptRequest],
) -> Result<(), RecordFault>
    requires no_request { recorder.old.requests ≡ [] }
    requires few { length shapes.now ≤ MAX_REQUESTS }
    ensures made { OnOk result (recorder.new ≡ record recorder.old { requests = map request_of shapes.now }) }
    ensures ok { OnOk result (first_answer (request_fault recorder.old.completions recorder.old.rounds recorder.old.config recorder.old.caps) (prefixed shapes.now) ≡ None) }
    ensures err { IfErr result (λ e. e ≢ OutOfMemory → first_answer (request_fault recorder.old.completions recorder.old.rounds recorder.old.config recorder.old.caps) (prefixed shapes.now) ≡ Some e) }
{
    for (number, shape) in shapes.iter().enumerate() {
        add_request(alloc, recorder, number, *shape)?;
    }
    Ok(())
}

// Adds the request of this number beside those before it.
fn add_request(
    alloc: Global,
    recorder: &mut Recorder,
    number: usize,
    shape: CamxptRequest,
) -> Result<(), RecordFault>
    requires { length recorder.old.requests < MAX_REQUESTS }
    ensures made { OnOk result (recorder.new ≡ record recorder.old { requests = recorder.old.requests ++ request_of shape ∷ [] }) }
    ensures ok { OnOk result (fault_at number recorder.old.completions recorder.old.rounds recorder.old.config recorder.old.caps (recorder.old.requests, request_of shape) ≡ None) }
    ensures err { IfErr result (λ e. e ≢ OutOfMemory → fault_at number recorder.old.completions recorder.old.rounds recorder.old.config recorder.old.caps (recorder.old.requests, request_of shape) ≡ Some e) }
{
    let request = request_of(shape);
    if !recorder.takes_done(request) {
        return Err(RecordFault::Item(E_DONE, number));
    }
    match recorder.add_request(alloc, request) {
        Ok(()) => Ok(()),
        Err(RequestError::Illegal(cause)) => Err(RecordFault::Item(cause_code(cause), number)),
        Err(RequestError::OutOfMemory) => Err(RecordFault::OutOfMemory),
    }
}
