//! The page: in what two inputs differ, what waiting cost in each, and what changed most.

use crate::compare::differences::push_differences;
use crate::compare::most::{push_most_cause, push_most_rows};
use crate::compare::rows::push_rows;
use crate::compare::totals::{push_causes, push_totals};
use crate::compared::Compared;
use crate::pair::Pair;
use std::alloc::{AllocError, Global};
use wait_causes::PairBy;
use wording::Page;

/// The page on two explanations: in what the inputs differ beside their requests, how much the stays of each waited and what
/// that cost, by cause and by what full rows sent, each with the difference; what changed most; and the same by adapter,
/// device, driver and run level, whose rows are paired so. All costs are weighted rounds.
pub fn compare_page(
    alloc: Global,
    asked: PairBy,
    before: Compared<'_>,
    after: Compared<'_>,
) -> Result<String, AllocError> {
    let pair = Pair {
        asked,
        before,
        after,
    };
    let mut page = Page::new(alloc);
    push_names(&mut page, &pair);
    push_whole(alloc, &mut page, &pair)?;
    push_tables(alloc, &mut page, &pair)?;
    page.finish()
}

// Puts what the inputs are called on the page.
fn push_names(page: &mut Page, pair: &Pair<'_>) {
    page.put("before  ");
    page.shown(pair.before.name);
    page.put("\nafter   ");
    page.shown(pair.after.name);
    page.put("\n");
}

// Puts what changed most of each table on the page, and the tables.
fn push_tables(alloc: Global, page: &mut Page, pair: &Pair<'_>) -> Result<(), AllocError> {
    let tables = pair.tables(alloc)?;
    push_most_rows(alloc, page, pair, &tables)?;
    push_rows(alloc, page, pair, &tables)
}

// Puts in what the inputs differ on the page, and what all stays of each waited.
fn push_whole(alloc: Global, page: &mut Page, pair: &Pair<'_>) -> Result<(), AllocError> {
    let (was, is) = (
        pair.before.explanation.whole(alloc)?,
        pair.after.explanation.whole(alloc)?,
    );
    push_differences(alloc, page, pair)?;
    push_totals(page, &was, &is);
    push_causes(page, pair, &was, &is);
    push_most_cause(page, pair, &was, &is);
    Ok(())
}
