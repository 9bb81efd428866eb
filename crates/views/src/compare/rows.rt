//! The tables of a comparison: what adapters, devices, drivers and run levels waited before and after.

use crate::pair::Pair;
use crate::tables::GROUPINGS;
use crate::text::push_columns;
use std::alloc::{AllocError, Global};
use wait_causes::{PairedRow, Row};
use wording::Page;

// What stands above the columns, and above those two by two.
const HEAD: &str = "before after    before     after difference    before     after before after";

const PAIRS: &str = "stays           live                           excess           p99";

/// Puts the tables on the page.
pub(crate) fn push_rows(
    alloc: Global,
    page: &mut Page,
    pair: &Pair<'_>,
    tables: &[Vec<PairedRow>],
) -> Result<(), AllocError> {
    let width = width_of(pair);
    page.show(format_args!("\n{:<width$} {PAIRS}\n{:<width$} {HEAD}\n", "", ""));
    for ((by, _, _), rows) in GROUPINGS.iter().zip(tables) {
        for row in rows {
            push_row(page, &pair.caption(alloc, *by, row)?, width, row);
        }
    }
    Ok(())
}

// How wide the column of captions is.
fn width_of(pair: &Pair<'_>) -> usize {
    let (before, after) = (pair.before.captions(), pair.after.captions());
    before.width().max(after.width())
}

// Puts what a row is called in this width on the page, and its numbers.
fn push_row(page: &mut Page, caption: &str, width: usize, row: &PairedRow) {
    page.show(format_args!("{caption:<width$}"));
    let (was, is) = (numbers_of(&row.before), numbers_of(&row.after));
    push_columns(
        page,
        &[
            (6, was.stays),
            (5, is.stays),
            (9, was.live),
            (9, is.live),
            (10, is.live.saturating_sub(was.live)),
            (9, was.excess),
            (9, is.excess),
            (6, was.p99),
            (5, is.p99),
        ],
    );
    page.put("\n");
}

// The numbers of a row.
#[derive(Clone, Copy)]
struct Numbers {
    stays: i128,
    live: i128,
    excess: i128,
    p99: i128,
}

// Those of this row, and 0 of none.
fn numbers_of(row: &Option<Row>) -> Numbers {
    match row {
        Some(row) => Numbers {
            stays: i128::from(row.part.stays),
            live: i128::from(row.part.live),
            excess: row.part.excess(),
            p99: i128::from(row.part.p99),
        },
        None => Numbers {
            stays: 0,
            live: 0,
            excess: 0,
            p99: 0,
        },
    }
}
