//! The attempts that concern later windows.

ghost use Rattle.std.specs.Prelude.{◌≡◌, ◌<◌, All, IfOk, List, length};
ghost use Rattle.capture_windows.specs.Attempts.{Attempt, goes_on};
ghost use Rattle.capture_windows.specs.Devices.{going_on, numbered_in};
ghost use Rattle.capture_windows.specs.Counted.{AreCounts};

use crate::attempt::Attempt;
use crate::time_span::TimeSpan;
use slots::InFlight;
use std::alloc::{AllocError, Global};

/// The attempts that concern later windows, in the order given: those that aren't started yet, and those that were started in this
/// window and are in flight at its end, numbered by how many are in flight at each device. It fails only if there is no memory.
pub(crate) fn going_on(
    alloc: Global,
    attempts: &[Attempt],
    span: TimeSpan,
    counts: &[InFlight],
) -> Result<Vec<Attempt>, AllocError>
    requires devices { All (λ (a : Attempt). a.request.device < length counts.now) attempts.now }
    requires counts { AreCounts span attempts.now counts.now }
    ensures { IfOk result (λ going. going.items ≡ going_on span attempts.now) }
{
    let mut going = Vec::new(alloc);
    for attempt in attempts {
        if goes_on(attempt, span) {
            going.push(numbered_in(attempt, span, counts))?;
        }
    }
    Ok(going)
}

/// Whether an attempt concerns later windows.
pub fn goes_on(attempt: &Attempt, span: TimeSpan) -> bool
    ensures { result ≡ goes_on span attempt.now }
{
    !attempt.starts_before(span.until) || attempt.starts_in(span) && !attempt.is_over(span.until)
}

// An attempt with its number, if it was started in the window.
fn numbered_in(attempt: &Attempt, span: TimeSpan, counts: &[InFlight]) -> Attempt
    requires device { attempt.now.request.device < length counts.now }
    ensures { (all : List Attempt) → AreCounts span all counts.now → result ≡ numbered_in span all attempt.now }
{
    match attempt.request.started {
        Some(start) if attempt.starts_in(span) => Attempt {
            number: counts[attempt.request.device as usize].at(start),
            ..*attempt
        },
        _ => *attempt,
    }
}
