//! Sentences on what changed most.

use crate::compare::totals::cost_of;
use crate::pair::Pair;
use crate::tables::GROUPINGS;
use std::alloc::{AllocError, Global};
use wait_causes::{PairedRow, Part, Row, WaitCause, most_changed};
use wording::{Page, push_number, push_numbers, push_share};

/// Puts sentences on the page: how much the cost changed, and which cause changed most.
pub(crate) fn push_most_cause(page: &mut Page, pair: &Pair<'_>, was: &Part, is: &Part) {
    page.put("\n");
    push_change(page, was.live, is.live);
    if let Some(cause) = most_changed_cause(pair, was, is) {
        page.words(&["Of the causes ", cause.name(), " changed most"]);
        push_from_to(page, cost_of(&was.costs, cause), cost_of(&is.costs, cause));
    }
}

/// Puts a sentence on the page for each table: which adapter, device, driver and run level changed most.
pub(crate) fn push_most_rows(
    alloc: Global,
    page: &mut Page,
    pair: &Pair<'_>,
    tables: &[Vec<PairedRow>],
) -> Result<(), AllocError> {
    for ((by, words, _), rows) in GROUPINGS.iter().zip(tables) {
        if let Some(row) = most_changed(rows) {
            page.words(&["Of the ", words, " "]);
            page.put(&pair.caption(alloc, *by, &row)?);
            page.put(" changed most");
            push_from_to(page, live_of(&row.before), live_of(&row.after));
        }
    }
    Ok(())
}

// The weighted rounds of a row, and 0 of none.
fn live_of(row: &Option<Row>) -> u64 {
    match row {
        Some(row) => row.part.live,
        None => 0,
    }
}

// Puts a sentence on the whole cost on the page.
fn push_change(page: &mut Page, before: u64, after: u64) {
    if before == after {
        page.put("What the waiting cost didn't change.\n");
        return;
    }
    let how = if after < before { "fell" } else { "rose" };
    page.words(&["What the waiting cost ", how, " by "]);
    push_number(page, before.abs_diff(after));
    if before > 0 {
        page.put(", ");
        push_share(page, before.abs_diff(after), before);
    }
    page.put(".\n");
}

// Puts what a cost was and what it is on the page, to the end of the sentence.
fn push_from_to(page: &mut Page, before: u64, after: u64) {
    push_numbers(page, &[(": from ", before), (" to ", after)], ".\n");
}

// The cause whose cost changed most, if one did: of equal ones the first in the order of tests.
fn most_changed_cause(pair: &Pair<'_>, was: &Part, is: &Part) -> Option<WaitCause> {
    let mut most = None;
    let mut by = 0;
    for kind in &[
        pair.before.explanation.kind(),
        pair.after.explanation.kind(),
    ] {
        for cause in &kind.causes() {
            let change = cost_of(&was.costs, *cause).abs_diff(cost_of(&is.costs, *cause));
            if change > by {
                by = change;
                most = Some(*cause);
            }
        }
    }
    most
}
