//! The stays that cost most.

use crate::text::columns::push_spelled;
use recording_file::Span;
use std::alloc::{AllocError, Global};
use wait_causes::{ExplainedStay, Explanation, InputKind};
use wording::{Captions, Page, push_range, push_time, shortened};

// What stands above the stays of a trace, and above the requests of a recording.
const TRACE_HEAD: &str = "\nThe stays whose waiting cost most:\n\n  CCB try";

const RECORDING_HEAD: &str = "\nThe requests whose waiting cost most:\n\n  request";

// What stands above the columns after the device, of a trace and of a recording.
const TRACE_COLUMNS: &str = "priority arrival  sent  best      cost  waited";

const RECORDING_COLUMNS: &str = "priority arrival  sent  pace  best      cost  waited";

/// Puts at most that many of the stays at these places on the page, with how many rounds they waited for each cause.
pub(crate) fn push_stays(
    alloc: Global,
    page: &mut Page,
    captions: Captions<'_>,
    explanation: &Explanation,
    unit: Option<Span>,
    places: &[usize],
    top: usize,
) -> Result<(), AllocError> {
    if places.is_empty() || top == 0 {
        return Ok(());
    }
    let (stays, kind) = (explanation.stays(), explanation.kind());
    let (head, columns) = match kind {
        InputKind::Trace => (TRACE_HEAD, TRACE_COLUMNS),
        InputKind::Recording => (RECORDING_HEAD, RECORDING_COLUMNS),
    };
    let width = captions.width().saturating_sub(2);
    page.put(head);
    page.show(format_args!("  {:<width$} {columns}\n", "path"));
    for place in places.iter().take(top) {
        if let Some(stay) = stays.get(*place) {
            let device = shortened(alloc, &captions.device(alloc, stay.device)?)?;
            push_stay(alloc, page, kind, unit, &device, width, stay)?;
        }
    }
    Ok(())
}

// A stay on a device that is called so, to the end of its last line.
fn push_stay(
    alloc: Global,
    page: &mut Page,
    kind: InputKind,
    unit: Option<Span>,
    device: &str,
    width: usize,
    stay: &ExplainedStay,
) -> Result<(), AllocError> {
    push_numbers(alloc, page, kind, unit, device, width, stay)?;
    push_waits(page, kind, stay, width.saturating_add(before_waits(kind)));
    push_span(page, unit, stay);
    Ok(())
}

// The columns of a stay, up to its causes.
fn push_numbers(
    alloc: Global,
    page: &mut Page,
    kind: InputKind,
    unit: Option<Span>,
    device: &str,
    width: usize,
    stay: &ExplainedStay,
) -> Result<(), AllocError> {
    match kind {
        InputKind::Trace => page.show(format_args!("{:>5} {:>3}", stay.ccb, stay.attempt)),
        InputKind::Recording => page.show(format_args!("{:>9}", stay.ccb)),
    }
    page.show(format_args!("  {device:<width$}"));
    page.show(format_args!(" {:>8} {:>7} {:>5}", stay.priority, stay.arrival, stay.live));
    if let Some(pace) = stay.pace {
        page.show(format_args!(" {pace:>5}"));
    }
    page.show(format_args!(" {:>5} ", stay.best));
    push_spelled(alloc, page, unit, stay.cost(), 9)?;
    page.put("  ");
    Ok(())
}

// How wide the columns before the causes are, beside the device's.
fn before_waits(kind: InputKind) -> usize {
    match kind {
        InputKind::Trace => 52,
        InputKind::Recording => 58,
    }
}

// Whether a cause after that many begins a line. In a recording there are two on a line, since its numbers are wider.
fn begins_a_line(kind: InputKind, shown: u32) -> bool {
    match kind {
        InputKind::Trace => shown % 3 == 0,
        InputKind::Recording => shown % 2 == 0,
    }
}

// How many rounds a stay waited for each cause; what stands before these has that width.
fn push_waits(page: &mut Page, kind: InputKind, stay: &ExplainedStay, width: usize) {
    let mut shown = 0u32;
    for cause in &kind.causes() {
        let rounds = stay.rounds.for_cause(*cause);
        if rounds > 0 {
            push_between(page, kind, shown, width);
            page.show(format_args!("{rounds} {}", cause.name()));
            shown = shown.saturating_add(1);
        }
    }
    page.put(", ");
}

// What stands between a cause and that many before it.
fn push_between(page: &mut Page, kind: InputKind, shown: u32, width: usize) {
    if shown > 0 && begins_a_line(kind, shown) {
        page.show(format_args!(",\n{:<width$}", ""));
    } else if shown > 0 {
        page.put(", ");
    }
}

// Which rounds a stay waited, and how long that is if it is known, to the end of the line.
fn push_span(page: &mut Page, unit: Option<Span>, stay: &ExplainedStay) {
    let waited = stay.live.saturating_sub(stay.arrival);
    page.put(if waited == 1 { "round " } else { "rounds " });
    push_range(page, stay.arrival, stay.live.saturating_sub(1));
    push_time(page, unit, u64::from(waited));
    page.put("\n");
}
