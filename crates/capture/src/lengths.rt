//! How long rounds may be.

ghost use Rattle.std.specs.Prelude.{◌≡◌, ◌≤◌, ◌<◌, ◌^◌, IfOk, IfSome, IfNone};
ghost use Rattle.recording_file.specs.declared.limits.TheConstants.{MAX_RECORDED_ROUNDS};
ghost use Rattle.capture.specs.Lengths.{left_out, longest_round, half_wait, starts_on, max_starts, whole_time, shortest_round, round_by, usual_round};
ghost use Rattle.capture.specs.Rounds.{Span, rounds_of, span_nanoseconds};
ghost use Rattle.capture.specs.Spans.{MAX_COUNT, longest_span};
ghost use Rattle.capture.specs.Timed.{started};

use crate::rounds::first_arrival;
use crate::span_bounds::{span_from, span_within};
use crate::span_time::span_nanoseconds;
use crate::started::{last_start, started};
use crate::timed_request::TimedRequest;
use recording_file::{MAX_RECORDED_ROUNDS, Span};
use std::alloc::{AllocError, Global};

/// How many of the requests were never started.
pub fn left_out(requests: &[TimedRequest]) -> usize
    ensures { result ≡ left_out requests.now }
{
    requests
        .iter()
        .filter(|request| !request.started.is_some())
        .count()
}

/// The longest round that doesn't hide waits, in nanoseconds: half of the mean wait of the started requests. None if nothing was
/// started.
pub fn longest_round(requests: &[TimedRequest]) -> Option<u64>
    ensures { result ≡ longest_round requests.now }
{
    let mut waits: u128 = 0;
    let mut count: u64 = 0;
    for request in requests {
        if let Some(started) = request.started {
            waits += u128::from(started.saturating_sub(request.arrival));
            count += 1;
        }
    }
    if count == 0 {
        None
    } else {
        Some((waits / u128::from(2 * count)) as u64)
    }
}

/// The shortest round that keeps to 65,535 rounds, in nanoseconds. It fails only if there is no memory.
pub fn shortest_round(alloc: Global, requests: &[TimedRequest]) -> Result<u64, AllocError>
    ensures same { IfOk result (λ n. n ≡ shortest_round requests.now) }
    ensures fits { IfOk result (λ n. rounds_of n (started requests.now) ≤ MAX_RECORDED_ROUNDS) }
    ensures small { IfOk result (λ n. n < 2 ^ 63) }
{
    Ok(whole_time(alloc, requests)? / u64::from(MAX_RECORDED_ROUNDS) + 1)
}

/// The round to take where none is given: the mean time from a start of the busiest of that many devices to its next, over the
/// time from the first arrival to the last start, but at least what keeps to 65,535 rounds, and at most half of the mean wait
/// unless nobody waits. None if no round keeps to both. It fails only if there is no memory.
pub fn usual_round(
    alloc: Global,
    requests: &[TimedRequest],
    devices: u32,
) -> Result<Option<Span>, AllocError>
    ensures same { IfOk result (λ round. round ≡ usual_round requests.now devices) }
    ensures some { IfOk result (λ round. IfSome round (λ s. 1 ≤ s.count)) }

    // Waits aren't hidden, if there are any, and a recording may have so many rounds.
    ensures waits { IfOk result (λ round. IfSome round (λ s. 1 ≤ half_wait requests.now → span_nanoseconds s ≤ half_wait requests.now)) }
    ensures fits { IfOk result (λ round. IfSome round (λ s. rounds_of (span_nanoseconds s) (started requests.now) ≤ MAX_RECORDED_ROUNDS)) }
    ensures none { IfOk result (λ round. IfNone round ((s : Span) → 1 ≤ s.count → s.count ≤ MAX_COUNT → span_nanoseconds s ≤ half_wait requests.now → MAX_RECORDED_ROUNDS < rounds_of (span_nanoseconds s) (started requests.now))) }
{
    let time = whole_time(alloc, requests)?;
    let mean = time / max_starts(requests, devices).max(1);
    let shortest = time / u64::from(MAX_RECORDED_ROUNDS) + 1;
    let half = longest_round(requests).unwrap_or(0);
    Ok(round_by(mean.max(shortest), shortest, half))
}

// From the first arrival of a started request to the last start.
fn whole_time(alloc: Global, requests: &[TimedRequest]) -> Result<u64, AllocError>
    ensures { IfOk result (λ n. n ≡ whole_time requests.now) }
{
    let taken = started(alloc, requests)?;
    Ok(last_start(&taken).saturating_sub(first_arrival(&taken)))
}

// The usual time, if it is no longer than half of the mean wait or nobody waits; else that half, if it isn't too short.
#[tactic(auto, unfolding(crate::specs::Lengths::round_by))]
fn round_by(usual: u64, shortest: u64, half: u64) -> Option<Span>
    requires usual { shortest ≤ usual }
    requires shortest { 1 ≤ shortest }
    requires fits { shortest ≤ span_nanoseconds longest_span }
    ensures same { result ≡ round_by usual shortest half }
    ensures some { IfSome result (λ s. 1 ≤ s.count) }
    ensures waits { IfSome result (λ s. 1 ≤ half → span_nanoseconds s ≤ half) }
    ensures long { IfSome result (λ s. shortest ≤ span_nanoseconds s) }
    ensures none { IfNone result ((s : Span) → s.count ≤ MAX_COUNT → span_nanoseconds s ≤ half → span_nanoseconds s < shortest) }
{
    let round = span_from(usual);
    if half == 0 || span_nanoseconds(round) <= half {
        return Some(round);
    }
    let longest = span_within(half)?;
    if shortest <= span_nanoseconds(longest) {
        Some(longest)
    } else {
        None
    }
}

// How many requests of the busiest of that many devices were started.
fn max_starts(requests: &[TimedRequest], devices: u32) -> u64
    ensures { result ≡ max_starts requests.now devices }
{
    let mut most: u64 = 0;
    for device in 0..devices {
        most = most.max(starts_on(requests, device) as u64);
    }
    most
}

// How many requests of a device were started.
fn starts_on(requests: &[TimedRequest], device: u32) -> usize
    ensures { result ≡ starts_on requests.now device }
{
    requests
        .iter()
        .filter(|request| request.started.is_some() && request.device == device)
        .count()
}
