//! The table of what would have helped.

use crate::improvements::{WhatIfRow, WhatIfTable};
use crate::text::push_level_waits;
use std::alloc::{AllocError, Global};
use wording::{Captions, Page, push_number, push_numbers, push_time};

// How wide the column of words is, and one of costs.
const WORDS: usize = 40;

const COST: usize = 14;

/// The table of what would have helped: what was recorded; a row for each change, with what the waiting would have cost if who came
/// first goes first, if the heaviest goes first, and in a best schedule; and the ranks of the waits of each run level as recorded, by
/// weight and in a best schedule. Costs are weighted rounds. Where it is known how long a round is, waits are times.
pub fn what_if_page(alloc: Global, table: WhatIfTable<'_>) -> Result<String, AllocError> {
    let mut page = Page::new(alloc);
    let whole = table.explanation.whole(alloc)?;
    let unit = table.explanation.unit();
    push_numbers(&mut page, &[("recorded: ", whole.live)], " weighted rounds");
    push_time(&mut page, unit, whole.live);
    page.show(format_args!(
        "\n\n{:<WORDS$}{:>COST$}{:>COST$}{:>COST$}\n",
        "", "first come", "by weight", "best"
    ));
    for row in table.rows {
        push_row(alloc, &mut page, row)?;
    }
    let captions = Captions::of(table.explanation.config(), table.explanation);
    page.put("\n");
    push_level_waits(alloc, &mut page, captions, table.waits, unit)?;
    page.finish()
}

// Puts a row on the page.
fn push_row(alloc: Global, page: &mut Page, row: &WhatIfRow) -> Result<(), AllocError> {
    page.show(format_args!("{:<WORDS$}", row.words));
    push_cost(alloc, page, row.costs.first_come)?;
    push_cost(alloc, page, row.costs.by_weight)?;
    push_cost(alloc, page, Some(row.costs.best))?;
    page.put("\n");
    Ok(())
}

// Puts a cost on the page, with commas between its thousands, or that not all are sent in time.
fn push_cost(alloc: Global, page: &mut Page, cost: Option<u64>) -> Result<(), AllocError> {
    let mut shown = Page::new(alloc);
    match cost {
        Some(cost) => push_number(&mut shown, cost),
        None => shown.put("not in time"),
    }
    page.show(format_args!("{:>COST$}", shown.finish()?));
    Ok(())
}
