//! The table of a sweep.

use crate::swept::Swept;
use crate::swept::title::{push_blank, push_openings, push_titles, titles};
use std::alloc::{AllocError, Global};
use sweep::{Row, Setting, Spread};
use wording::Page;

// How wide a column of costs is, and one of rounds.
const COST: usize = 9;

const ROUNDS: usize = 8;

// What stands above the columns of one seed.
const HEAD: &str = "      live      best    excess      p99\n";

// What stands above the columns of several seeds: above three each, and above each.
const SPREAD_HEADS: &str =
    "                live                          best                        excess                         p99\n";

const SPREADS: &str =
    "     least    median  greatest     least    median  greatest     least    median  greatest    least   median greatest\n";

/// The table of a sweep: a row for each setting, with what its runs' waiting cost live and in a best schedule, how much of that
/// could have been avoided, and the rounds that 99 in a hundred stays didn't pass. Of several seeds it has the least, the median
/// and the greatest of each; of one seed just the number. The row of a setting of which a run didn't drain says so, and how many
/// commands a run left.
pub fn sweep_page(alloc: Global, swept: Swept<'_>) -> Result<String, AllocError> {
    let mut page = Page::new(alloc);
    let (settings, seeds) = (swept.plan.settings(), swept.plan.seeds());
    page.shown(swept.name);
    let titles = match settings.first() {
        Some(setting) => titles(alloc, swept.config, &setting.changes)?,
        None => Vec::new(alloc),
    };
    push_head(&mut page, &titles, seeds);
    for (setting, row) in settings.iter().zip(swept.rows.iter()) {
        push_row(&mut page, &titles, seeds, setting, row);
    }
    page.finish()
}

// Puts what stands above the columns on the page.
fn push_head(page: &mut Page, titles: &[String], seeds: u32) {
    if seeds == 1 {
        page.put(", run by seed 1\n\n");
        push_titles(page, titles);
        page.put(HEAD);
        return;
    }
    page.show(format_args!(", run by seeds 1 to {seeds}\n\n"));
    push_blank(page, titles);
    page.put(SPREAD_HEADS);
    push_titles(page, titles);
    page.put(SPREADS);
}

// Puts the row of a setting on the page.
fn push_row(page: &mut Page, titles: &[String], seeds: u32, setting: &Setting, row: &Row) {
    push_openings(page, titles, &setting.changes);
    match row {
        Row::Drained(figures) => {
            push_spread(page, seeds, COST, &figures.live);
            push_spread(page, seeds, COST, &figures.best);
            push_spread(page, seeds, COST, &figures.excess);
            push_spread(page, seeds, ROUNDS, &figures.p99);
        }
        Row::Undrained { runs, left } => push_left(page, seeds, *runs, left),
    }
    page.put("\n");
}

// Puts a spread on the page: of one seed just the number.
fn push_spread(page: &mut Page, seeds: u32, width: usize, spread: &Spread) {
    page.show(format_args!(" {:>width$}", spread.least));
    if seeds > 1 {
        page.show(format_args!(" {:>width$} {:>width$}", spread.median, spread.greatest));
    }
}

// Puts on the page that runs didn't drain, and what was left.
fn push_left(page: &mut Page, seeds: u32, runs: u32, left: &Spread) {
    if seeds == 1 {
        page.show(format_args!(" not drained, commands left: {}", left.least));
    } else {
        page.show(format_args!(
            " {runs} of {seeds} runs not drained, commands left: {} to {}, median {}",
            left.least, left.greatest, left.median
        ));
    }
}
