//! Times as rounds.

ghost use Rattle.std.specs.Prelude.{◌≡◌, ◌≤◌, None, Some, IfOk, IfErr, OnOk, length, map, All, option_and_then};
ghost use Rattle.recording_file.specs.declared.limits.TheConstants.{MAX_RECORDED_ROUNDS};
ghost use Rattle.capture.specs.Timed.{start_of, most_of};
ghost use Rattle.capture.specs.Rounds.{round_at, first_arrival, rounds_of, unless_end, last_round, done_round, request_in};
ghost use Rattle.capture.specs.Faults.{size_fault, late_fault};

use crate::capture_fault::CaptureFault;
use crate::started::{last_start, start_of};
use crate::timed_request::TimedRequest;
use recording_file::{MAX_RECORDED_ROUNDS, MAX_REQUESTS, Request};
use std::alloc::{AllocError, Global};

/// When the first of these arrives, and 0 where there is none.
pub fn first_arrival(requests: &[TimedRequest]) -> u64
    ensures { result ≡ first_arrival requests.now }
{
    match requests.first() {
        Some(request) => request.arrival,
        None => 0,
    }
}

/// The last round in which one of these, which stand by arrival, was started, where a round has that many nanoseconds.
///
/// # Errors
///
/// `NothingStarted`, `TooManyRequests` or `TooManyRounds`, the first in this order.
#[tactic(auto, unfolding(crate::specs::Faults::size_fault))]
pub fn rounds_of(span: u64, requests: &[TimedRequest]) -> Result<u32, CaptureFault>
    requires { 1 ≤ span }
    ensures rounds { IfOk result (λ rounds. rounds ≡ rounds_of span requests.now) }
    ensures ok { OnOk result (size_fault (length requests.now) (rounds_of span requests.now) ≡ None) }
    ensures err { IfErr result (λ e. size_fault (length requests.now) (rounds_of span requests.now) ≡ Some e) }
{
    if requests.is_empty() {
        return Err(CaptureFault::NothingStarted);
    }
    if requests.len() > MAX_REQUESTS {
        return Err(CaptureFault::TooManyRequests(requests.len()));
    }
    let before = last_start(requests).saturating_sub(first_arrival(requests)) / span;
    if before >= u64::from(MAX_RECORDED_ROUNDS) {
        return Err(CaptureFault::TooManyRounds(u128::from(before) + 1));
    }
    Ok(before as u32 + 1)
}

/// Whether none of these was started after the last of that many rounds, and there are no more than a recording has.
///
/// # Errors
///
/// `TooManyRequests` or `TooManyRounds`, the first in this order.
#[tactic(auto, unfolding(crate::specs::Faults::late_fault))]
pub fn check_starts(
    span: u64,
    begin: u64,
    rounds: u32,
    requests: &[TimedRequest],
) -> Result<(), CaptureFault>
    requires { 1 ≤ span }
    ensures ok { OnOk result (late_fault rounds (length requests.now) (round_at span begin (most_of start_of requests.now)) ≡ None) }
    ensures err { IfErr result (λ e. late_fault rounds (length requests.now) (round_at span begin (most_of start_of requests.now)) ≡ Some e) }
{
    if requests.len() > MAX_REQUESTS {
        return Err(CaptureFault::TooManyRequests(requests.len()));
    }
    let before = last_start(requests).saturating_sub(begin) / span;
    if before >= u64::from(rounds) {
        return Err(CaptureFault::TooManyRounds(u128::from(before) + 1));
    }
    Ok(())
}

/// Started requests in rounds. It fails only if there is no memory.
pub fn requests_in(
    alloc: Global,
    span: u64,
    begin: u64,
    rounds: u32,
    requests: &[TimedRequest],
) -> Result<Vec<Request>, AllocError>
    requires span { 1 ≤ span }
    requires arrivals { All (λ q. round_at span begin q.arrival ≤ rounds) requests.now }
    requires starts { All (λ q. round_at span begin (start_of q) ≤ rounds) requests.now }
    ensures { IfOk result (λ made. made.items ≡ map (request_in span begin rounds) requests.now) }
{
    let mut made = Vec::with_capacity(alloc, requests.len())?;
    for request in requests {
        made.push(request_in(span, begin, rounds, request))?;
    }
    Ok(made)
}

// A started request in rounds.
#[tactic(auto, unfolding(crate::specs::Rounds::request_in))]
fn request_in(span: u64, begin: u64, rounds: u32, request: &TimedRequest) -> Request
    requires span { 1 ≤ span }
    requires arrival { round_at span begin request.now.arrival ≤ rounds }
    requires start { round_at span begin (start_of request.now) ≤ rounds }
    ensures { result ≡ request_in span begin rounds request.now }
{
    let sent = round_at(span, begin, rounds, start_of(request));
    Request {
        driver: request.driver,
        device: request.device,
        priority: request.priority,
        arrival: round_at(span, begin, rounds, request.arrival),
        last: last_round(span, begin, rounds, sent, request.retried),
        sent,
        done: done_round(span, begin, request.completed),
    }
}

// The round of a time.
fn round_at(span: u64, begin: u64, rounds: u32, time: u64) -> u32
    requires span { 1 ≤ span }
    requires within { round_at span begin time ≤ rounds }
    ensures { result ≡ round_at span begin time }
{
    (time.saturating_sub(begin) / span) as u32 + 1
}

// The round of a completion, if a recording can say it.
#[tactic(auto, unfolding(crate::specs::Rounds::done_round))]
fn done_round(span: u64, begin: u64, completed: Option<u64>) -> Option<u32>
    requires { 1 ≤ span }
    ensures { result ≡ option_and_then (done_round span begin) completed }
{
    let before = completed?.saturating_sub(begin) / span;
    if before < u64::from(u32::MAX) {
        Some(before as u32 + 1)
    } else {
        None
    }
}

// The last round of a request that was started in a round, and whose next attempt arrives at a time.
fn last_round(span: u64, begin: u64, rounds: u32, sent: u32, retried: Option<u64>) -> Option<u32>
    requires { 1 ≤ span }
    ensures { result ≡ last_round span begin rounds sent retried }
{
    let before = retried?.saturating_sub(begin) / span;
    if before < u64::from(rounds) {
        unless_end(rounds, sent.max(before as u32))
    } else {
        None
    }
}

// A last round as a request has it: none where it is the last of all.
fn unless_end(rounds: u32, last: u32) -> Option<u32>
    ensures { result ≡ unless_end rounds last }
{
    if last < rounds { Some(last) } else { None }
}
