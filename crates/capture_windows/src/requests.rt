//! The requests of a window, and those that wait at its end.

ghost use Rattle.std.specs.Prelude.{◌≡◌, IfOk, map};
ghost use Rattle.capture_windows.specs.Attempts.{is_request, is_waiting, known_at, requests_in, started_in, waiting_at};

use crate::attempt::{Attempt, known_at};
use crate::time_span::TimeSpan;
use capture::{TimedRequest, in_arrival_order};
use std::alloc::{AllocError, Global};

/// The requests that were started in a window, as they are known at its end: by arrival, and of one arrival in the order given. It
/// fails only if there is no memory.
pub(crate) fn requests_in(
    alloc: Global,
    attempts: &[Attempt],
    span: TimeSpan,
) -> Result<Vec<TimedRequest>, AllocError>
    ensures { IfOk result (λ requests. requests.items ≡ requests_in span attempts.now) }
{
    in_arrival_order(alloc, started_in(alloc, attempts, span)?)
}

// The same in the order given.
fn started_in(
    alloc: Global,
    attempts: &[Attempt],
    span: TimeSpan,
) -> Result<Vec<TimedRequest>, AllocError>
    ensures { IfOk result (λ requests. requests.items ≡ map (known_at span.until) (started_in span attempts.now)) }
{
    attempts
        .iter()
        .filter(|attempt| is_request(attempt, span))
        .map(|attempt| attempt.request)
        .map(|request| known_at(&request, span.until))
        .collect(alloc)
}

/// The requests that wait at a time, as they are known then, in the order given. It fails only if there is no memory.
pub(crate) fn waiting_at(
    alloc: Global,
    attempts: &[Attempt],
    time: u64,
) -> Result<Vec<TimedRequest>, AllocError>
    ensures { IfOk result (λ requests. requests.items ≡ waiting_at time attempts.now) }
{
    attempts
        .iter()
        .filter(|attempt| is_waiting(attempt, time))
        .map(|attempt| attempt.request)
        .map(|request| known_at(&request, time))
        .collect(alloc)
}

/// Whether it is a request that was started in a span.
pub(crate) fn is_request(attempt: &Attempt, span: TimeSpan) -> bool
    ensures { result ≡ is_request span attempt.now }
{
    attempt.is_taken && attempt.starts_in(span)
}

/// Whether it is a request that waits at a time.
pub(crate) fn is_waiting(attempt: &Attempt, time: u64) -> bool
    ensures { result ≡ is_waiting time attempt.now }
{
    attempt.is_taken && attempt.request.arrival < time && !attempt.starts_before(time)
}
