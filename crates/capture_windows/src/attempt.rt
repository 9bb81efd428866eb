//! Attempts of requests, and what is known of them at a time.

ghost use Rattle.std.specs.Prelude.{◌≡◌};
ghost use Rattle.capture_windows.specs.Attempts.{before, is_before, is_over, is_within, known_at, starts_before, starts_in};

use crate::time_span::TimeSpan;
use capture::TimedRequest;

/// An attempt of a request, as far as it is known.
#[derive(Clone, Copy)]
pub struct Attempt {
    /// When it arrived, and when it was started, put back (a later attempt arrives then) or completed.
    pub request: TimedRequest,
    /// Whether it is one of the capture's requests. One that isn't only holds its slot: it arrived before the capture began, or at
    /// times that aren't taken.
    pub is_taken: bool,
    /// Whether it holds a slot of its device while it is in flight. A flush holds none.
    pub has_slot: bool,
    /// How many were in flight when it was started, itself counted. That is known once the window is over in which it was started;
    /// until then it is 0.
    pub number: u32,
}

impl Attempt {
    /// Whether it was started before a time.
    pub(crate) fn starts_before(&self, time: u64) -> bool
        ensures { result ≡ starts_before time self.now }
    {
        is_before(self.request.started, time)
    }

    /// Whether it was started in a span.
    pub(crate) fn starts_in(&self, span: TimeSpan) -> bool
        ensures { result ≡ starts_in span self.now }
    {
        match self.request.started {
            Some(start) => span.from <= start && start < span.until,
            None => false,
        }
    }

    /// Whether it was put back or completed before a time.
    pub(crate) fn is_over(&self, time: u64) -> bool
        ensures { result ≡ is_over time self.now }
    {
        is_before(self.request.completed, time) || is_before(self.request.retried, time)
    }
}

/// The request as it is known at a time.
pub(crate) fn known_at(request: &TimedRequest, time: u64) -> TimedRequest
    ensures { result ≡ known_at time request.now }
{
    TimedRequest {
        started: before(request.started, time),
        retried: before(request.retried, time),
        completed: before(request.completed, time),
        ..*request
    }
}

/// A time, if it is known at another: it lies before it.
pub(crate) fn before(event: Option<u64>, time: u64) -> Option<u64>
    ensures { result ≡ before time event }
{
    match event {
        Some(at) if at < time => Some(at),
        _ => None,
    }
}

// Whether something happened before a time.
fn is_before(event: Option<u64>, time: u64) -> bool
    ensures { result ≡ is_before time event }
{
    match event {
        Some(at) => at < time,
        None => false,
    }
}
