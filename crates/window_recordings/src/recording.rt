//! The recording of what was taken for a window.

ghost use Rattle.std.specs.Prelude.{◌≡◌, IfOk};
ghost use Rattle.window_recordings.specs.Recordings.{IsMadeOf, IsWholeOf, capture_of, few};

use crate::cut_fault::CutFault;
use crate::cut_window::{Cut, CutWindow};
use crate::layout::Layout;
use crate::names::Names;
use crate::parts::WindowParts;
use crate::window::first_window;
use cam_types::{Config, Priority};
use capture::{Capture, CaptureFault, TimedRequest};
use capture_windows::{MAX_WINDOW_ROUNDS, Rounds, WindowRoom};
use recording_file::{Recording, Span};
use std::alloc::{AllocError, Global};

/// The recording of a window. Requests that arrive at `end` or later aren't taken.
///
/// # Errors
///
/// `TooManyDevices` if more than 32 devices have requests in it; `TooManyAdapters` if they are on more than 8; `Capture` if there is no
/// recording of its requests; `OutOfMemory` if no memory is left.
pub fn record(
    alloc: Global,
    layout: &Layout,
    names: Names<'_>,
    end: Option<u64>,
    cut: &Cut,
) -> Result<CutWindow, CutFault>
    ensures { IfOk result (λ w. IsMadeOf end cut.now w) }
{
    let window = &cut.window;
    let mut made = CutWindow {
        number: cut.number,
        from: window.rounds.begin,
        until: window.span.until,
        round: cut.round,
        rounds: window.rounds.count,
        requests: window.taken.requests.len(),
        carried: 0,
        recording: None,
    };
    if made.requests == 0 {
        return Ok(made);
    }
    let whole = recording_of(alloc, layout, names, end, cut)?;
    made.carried = carried_of(whole.config(), window.rounds, &window.taken.requests);
    made.recording = Some(first_window(alloc, &whole, few(window.rounds.count))?);
    Ok(made)
}

// How many rounds a window has: at least one, and not too many.
fn few(count: u32) -> u32
    ensures { result ≡ few count }
{
    count.max(1).min(MAX_WINDOW_ROUNDS)
}

// The recording of a window, with one round more for those that go on waiting.
fn recording_of(
    alloc: Global,
    layout: &Layout,
    names: Names<'_>,
    end: Option<u64>,
    cut: &Cut,
) -> Result<Recording, CutFault>
    ensures { IfOk result (λ r. IsWholeOf end cut.now r) }
{
    let (window, taken) = (&cut.window, &cut.window.taken);
    let parts = WindowParts::of(
        alloc,
        names,
        end,
        &taken.requests,
        &taken.waiting,
        window.span.until,
    )?;
    let capture = capture_of(alloc, cut, &parts.requests)?;
    let spare = spare_rows(alloc, &parts.places, &taken.rooms)?;
    layout.recording(alloc, &capture, &spare, &parts.devices, &parts.drivers)
}

// A capture of a window in its rounds, with one more for those that go on waiting.
fn capture_of(alloc: Global, cut: &Cut, parts: &[TimedRequest]) -> Result<Capture, CaptureFault>
    ensures { IfOk result (λ c. c ≡ capture_of cut.now parts.now) }
{
    let rounds = cut.window.rounds;
    let round = Span {
        count: cut.round.count.max(1),
        ..cut.round
    };
    Capture::in_rounds_from(alloc, round, rounds.begin, few(rounds.count) + 1, parts)
}

// The starts that devices had room for, in the order of the window's devices.
fn spare_rows(
    alloc: Global,
    places: &[u32],
    rooms: &[WindowRoom],
) -> Result<Vec<Vec<u32>>, AllocError> {
    let mut rows = Vec::with_capacity(alloc, places.len())?;
    for place in places {
        let mut row = Vec::new(alloc);
        if let Some(room) = rooms.get(*place as usize)
            && let Some(spare) = &room.spare
        {
            row.extend_from_slice(&spare.row)?;
        }
        rows.push(row)?;
    }
    Ok(rows)
}

// What requests waited before the first of these rounds, in weighted rounds: each from the round of its arrival on.
fn carried_of(config: &Config, rounds: Rounds, requests: &[TimedRequest]) -> u64 {
    let mut carried = 0u64;
    for request in requests {
        let before = rounds.begin.saturating_sub(request.arrival);
        let waited = before.div_ceil(rounds.length.max(1));
        if let Ok(priority) = Priority::new(request.priority) {
            let weight = u64::from(config.weight(priority));
            carried = carried.saturating_add(weight.saturating_mul(waited));
        }
    }
    carried
}
