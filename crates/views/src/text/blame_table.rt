//! Who was in the way: a sentence on the pair that cost most, and the tables.

use crate::text::columns::{push_caption, push_spelled};
use recording_file::Span;
use std::alloc::{AllocError, Global};
use wait_causes::{BlameRow, Grouping};
use wording::{Captions, Page, push_number, push_rounds, push_span};

// What stands above the columns.
const COLUMNS: &str = "  waited avoidable       cost";

/// Puts a sentence on the page on the pair of drivers that cost most: who waited, for whom, and how much another order would have
/// avoided of that. The rows are in the order of their costs.
pub(crate) fn push_worst_pair(
    page: &mut Page,
    captions: Captions<'_>,
    unit: Option<Span>,
    rows: &[BlameRow],
) {
    for row in rows {
        if let Some(by) = row.by {
            push_pair(page, captions, unit, row, by);
            return;
        }
    }
}

// Puts the sentence on this pair on the page.
fn push_pair(page: &mut Page, captions: Captions<'_>, unit: Option<Span>, row: &BlameRow, by: u32) {
    page.put("\n");
    push_driver(page, captions, "Driver", by);
    page.put(" made ");
    if by == row.waiting {
        page.put("itself");
    } else {
        push_driver(page, captions, "driver", row.waiting);
    }
    page.put(" wait ");
    match unit {
        Some(span) => {
            push_span(page, span, row.waited);
            page.put(", of which ");
            push_span(page, span, row.avoidable);
            page.put(" was avoidable by order.\n");
        }
        None => {
            push_rounds(page, None, row.waited);
            page.put(", of which ");
            push_number(page, row.avoidable);
            page.put(" were avoidable by order.\n");
        }
    }
}

// A driver by its name, or by this word and its number.
fn push_driver(page: &mut Page, captions: Captions<'_>, word: &str, number: u32) {
    match captions.name_by(Grouping::Driver, number) {
        Some(name) => page.shown(name),
        None => page.show(format_args!("{word} {number}")),
    }
}

/// Puts a table on the page: how long who waited for whom, and what that cost.
pub(crate) fn push_blame(
    alloc: Global,
    page: &mut Page,
    captions: Captions<'_>,
    unit: Option<Span>,
    by: Grouping,
    rows: &[BlameRow],
) -> Result<(), AllocError> {
    let width = captions.width();
    page.show(format_args!("\n{:<width$} {:<width$} {COLUMNS}\n", "waiting", "for"));
    for row in rows {
        push_names(alloc, page, captions, by, row)?;
        push_numbers(alloc, page, unit, row)?;
    }
    Ok(())
}

// Puts who waited in a row on the page, and for whom.
fn push_names(
    alloc: Global,
    page: &mut Page,
    captions: Captions<'_>,
    by: Grouping,
    row: &BlameRow,
) -> Result<(), AllocError> {
    let width = captions.width();
    push_caption(alloc, page, captions, by, row.waiting, width)?;
    page.put(" ");
    match row.by {
        Some(number) => push_caption(alloc, page, captions, by, number, width)?,
        None => page.show(format_args!("{:<width$}", "nobody")),
    }
    Ok(())
}

// Puts the numbers of a row on the page.
fn push_numbers(
    alloc: Global,
    page: &mut Page,
    unit: Option<Span>,
    row: &BlameRow,
) -> Result<(), AllocError> {
    page.put(" ");
    push_spelled(alloc, page, unit, row.waited, 8)?;
    page.put(" ");
    push_spelled(alloc, page, unit, row.avoidable, 9)?;
    page.show(format_args!(" {:>10}\n", row.cost));
    Ok(())
}
