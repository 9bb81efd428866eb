//! Caps and requests as the windows have them.

ghost use Rattle.std.specs.Prelude.{◌≡◌, ◌-◌, option_map};
ghost use Rattle.window_recordings.specs.Windows.{first_cap, first_request, second_cap, second_request};

use recording_file::{Cap, Request};

/// The cap until the end of the window up to a round.
pub(crate) fn first_cap(cap: Cap, round: u32) -> Cap
    ensures { result ≡ first_cap round cap }
{
    Cap {
        last: round.min(cap.last),
        ..cap
    }
}

/// The cap from the begin of the window after a round, in the window's rounds.
pub(crate) fn second_cap(cap: Cap, round: u32) -> Cap
    ensures { result ≡ second_cap round cap }
{
    Cap {
        first: cap.first.saturating_sub(round).max(1),
        last: cap.last.saturating_sub(round),
        ..cap
    }
}

/// The request in the window up to a round.
pub(crate) fn first_request(request: Request, round: u32) -> Request
    ensures { result ≡ first_request round request }
{
    Request {
        last: match request.last {
            Some(last) => Some(round.min(last)),
            None => None,
        },
        done: match request.done {
            Some(done) if done <= round => Some(done),
            _ => None,
        },
        ..request
    }
}

/// The request in the window after a round, in the window's rounds.
pub(crate) fn second_request(request: Request, round: u32) -> Request
    ensures { result ≡ second_request round request }
{
    Request {
        arrival: request.arrival.saturating_sub(round).max(1),
        last: later(request.last, round),
        sent: request.sent.saturating_sub(round),
        done: later(request.done, round),
        ..request
    }
}

// The round in the window after another one, if there is one.
fn later(round: Option<u32>, cut: u32) -> Option<u32>
    ensures { result ≡ option_map (λ n. n - cut) round }
{
    match round {
        Some(round) => Some(round.saturating_sub(cut)),
        None => None,
    }
}
