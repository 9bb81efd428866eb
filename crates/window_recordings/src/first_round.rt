//! How long a round is where that isn't given.

use capture::{
    TimedRequest, longest_round, short_from, span_nanoseconds, span_within, usual_round,
};
use capture_windows::{Attempt, MAX_WINDOW_ROUNDS};
use recording_file::{Span, TimeUnit};
use std::alloc::{AllocError, Global};

// So many starts tell how long requests wait.
const ENOUGH: usize = 100;

// When the first request that is taken arrived.
pub(crate) fn first_arrival(attempts: &[Attempt]) -> Option<u64> {
    let mut first: Option<u64> = None;
    for attempt in attempts {
        if attempt.is_taken {
            let arrival = attempt.request.arrival;
            first = Some(first.map_or(arrival, |first| first.min(arrival)));
        }
    }
    first
}

// The usual round of what is started in the first window, which begins and ends then. With few starts a round is at least so long that a
// window has all its time.
pub(crate) fn first_round(
    alloc: Global,
    attempts: &[Attempt],
    begin: u64,
    until: u64,
    devices: usize,
) -> Result<Span, AllocError> {
    let mut requests: Vec<TimedRequest> = Vec::new(alloc);
    for attempt in attempts {
        if attempt.is_taken && attempt.request.started.is_some_and(|start| start < until) {
            requests.push(attempt.request)?;
        }
    }
    let devices = u32::try_from(devices).unwrap_or(u32::MAX);
    let usual = match usual_round(alloc, &requests, devices)? {
        Some(usual) => usual,
        None => half_wait(&requests),
    };
    let time = until.saturating_sub(begin) / u64::from(MAX_WINDOW_ROUNDS);
    match short_from(time.saturating_add(1)) {
        Some(least)
            if requests.len() < ENOUGH && span_nanoseconds(usual) < span_nanoseconds(least) => {
            Ok(least)
        }
        _ => Ok(usual),
    }
}

// Half of the mean wait. Where that makes too many rounds, windows are shorter.
fn half_wait(requests: &[TimedRequest]) -> Span {
    match span_within(longest_round(requests).unwrap_or(1)) {
        Some(round) => round,
        None => Span {
            count: 1,
            unit: TimeUnit::Nanosecond,
        },
    }
}
