//! Whether requests can be those of a capture.

ghost use Rattle.std.specs.Prelude.{◌≡◌, None, Some, OnOk, IfErr, length};
ghost use Rattle.cam_types.specs.Lists.{prefixed, first_answer};
ghost use Rattle.capture.specs.Faults.{request_fault, is_early, is_ended_early};

use crate::capture_fault::CaptureFault;
use crate::timed_request::TimedRequest;
use cam_types::MAX_PRIORITY;

/// The first request that can't be one of a capture, if there is one.
pub fn check_requests(requests: &[TimedRequest]) -> Result<(), CaptureFault>
    ensures ok { OnOk result (first_answer request_fault (prefixed requests.now) ≡ None) }
    ensures err { IfErr result (λ e. first_answer request_fault (prefixed requests.now) ≡ Some e) }
{
    for (number, request) in requests.iter().enumerate() {
        if request.priority > MAX_PRIORITY {
            return Err(CaptureFault::BadPriority(number));
        }
        if is_early(request) {
            return Err(CaptureFault::StartedEarly(number));
        }
        if is_ended_early(request) {
            return Err(CaptureFault::EndedEarly(number));
        }
    }
    Ok(())
}

// Whether it was started before it arrived.
fn is_early(request: &TimedRequest) -> bool
    ensures { result ≡ is_early request.now }
{
    match request.started {
        Some(started) => started < request.arrival,
        None => false,
    }
}

// Whether it was completed before it was started.
fn is_ended_early(request: &TimedRequest) -> bool
    ensures { result ≡ is_ended_early request.now }
{
    match (request.started, request.completed) {
        (Some(started), Some(completed)) => completed < started,
        _ => false,
    }
}
