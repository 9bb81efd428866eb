//! A sentence each on the stay, the device and the freeze that cost most.

use crate::text::freezes::{frozen_by, frozen_name};
use recording_file::Span;
use std::alloc::{AllocError, Global};
use wait_causes::{ExplainedStay, Explanation, Freeze, Grouping, InputKind, Row};
use wording::{Captions, Page, push_range, push_round, spelled};

/// Puts the sentences on the stay and the freeze that cost most on the page, and on the device if a stay cost anything.
pub(crate) fn push_worst(
    alloc: Global,
    page: &mut Page,
    captions: Captions<'_>,
    explanation: &Explanation,
    unit: Option<Span>,
    stay: Option<&ExplainedStay>,
    freeze: Option<&Freeze>,
) -> Result<(), AllocError> {
    if let Some(stay) = stay {
        push_worst_stay(alloc, page, explanation, unit, stay)?;
        push_worst_device(alloc, page, captions, explanation, unit)?;
    }
    if let Some(freeze) = freeze {
        push_worst_freeze(page, &frozen_name(alloc, captions, freeze)?, freeze);
    }
    Ok(())
}

// Puts a sentence on the stay that cost most on the page.
fn push_worst_stay(
    alloc: Global,
    page: &mut Page,
    explanation: &Explanation,
    unit: Option<Span>,
    stay: &ExplainedStay,
) -> Result<(), AllocError> {
    match explanation.kind() {
        InputKind::Trace => page.show(format_args!("\nCCB {} (try {})", stay.ccb, stay.attempt)),
        InputKind::Recording => page.show(format_args!("\nRequest {}", stay.ccb)),
    }
    let cost = spelled(alloc, unit, stay.cost())?;
    page.show(format_args!(" cost most: {cost}, from round "));
    push_round(page, unit, stay.arrival);
    page.put(" to its send in round ");
    push_round(page, unit, stay.live);
    // Rounds with their times make a line of their own for each send.
    page.put(match unit {
        Some(_) => ".\nThe best schedule sends it in round ",
        None => "; the best schedule sends it in round ",
    });
    push_round(page, unit, stay.best);
    if let Some(pace) = stay.pace {
        page.put(", the best at the recorded pace in round ");
        push_round(page, unit, pace);
    }
    page.put(".\n");
    Ok(())
}

// Puts a sentence on the device whose stays cost most on the page, if one cost anything.
fn push_worst_device(
    alloc: Global,
    page: &mut Page,
    captions: Captions<'_>,
    explanation: &Explanation,
    unit: Option<Span>,
) -> Result<(), AllocError> {
    let rows = explanation.table(alloc, Grouping::Device)?;
    if let Some(row) = worst_row(&rows) {
        let device = captions.device(alloc, row.number)?;
        let cost = spelled(alloc, unit, row.part.live)?;
        page.show(format_args!("Of the devices {device} cost most: {cost}.\n"));
    }
    Ok(())
}

// The row that cost most; of equal ones the first, and none if no row cost anything.
fn worst_row(rows: &[Row]) -> Option<&Row> {
    let mut worst = None;
    let mut cost = 0;
    for row in rows {
        if row.part.live > cost {
            cost = row.part.live;
            worst = Some(row);
        }
    }
    worst
}

// Puts a sentence on this freeze of what has this name, the one that cost most, on the page.
fn push_worst_freeze(page: &mut Page, name: &str, freeze: &Freeze) {
    let by = frozen_by(freeze.kind);
    let rounds = if freeze.first == freeze.last {
        "round"
    } else {
        "rounds"
    };
    page.show(format_args!(
        "Of the freezes that of {name} by {by} cost most: {}, in {rounds} ",
        freeze.cost
    ));
    push_range(page, freeze.first, freeze.last);
    page.put(".\n");
}
