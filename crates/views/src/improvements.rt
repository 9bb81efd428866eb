//! A table of what-if rows, of which there is something to print.

pub use page::what_if_page;
use wait_causes::Explanation;
use what_if::Costs;
use wording::LevelWaits;

mod page;

/// What was recorded, what each order and each change would have made of it, and what these are of.
#[derive(Clone, Copy)]
pub struct WhatIfTable<'a> {
    /// What the input is called: any text.
    pub name: &'a str,
    /// The input.
    pub explanation: &'a Explanation,
    /// How long the stays of each run level wait.
    pub waits: &'a [LevelWaits],
    /// The rows, in their order.
    pub rows: &'a [WhatIfRow],
}

/// A row of the table.
#[derive(Drop)]
pub struct WhatIfRow {
    /// The words of the option that asks for it; of the net as it was none.
    pub option: String,
    /// What is changed, in words.
    pub words: String,
    /// What the waiting costs then.
    pub costs: Costs,
}
