//! A table with a row for each window.

use crate::watched::sums::{Pair, Sums};
use crate::watched::window::Window;
use recording_file::{NameKind, Span};
use std::alloc::{AllocError, Global};
use wording::{Page, nanoseconds, push_nanoseconds, push_number, push_share, shortened};

/// What stands above the columns.
pub const TABLE_HEAD: &str =
    "from        to            requests     waited  avoidable     order  idle slots        p99  costliest\n";

/// The row of a window, or of all of them: from when to when it is, how many requests were started in it, how long they waited, which
/// share of what that cost could have been avoided, by order and by idle slots, what 99 of a hundred waits don't pass, and which driver
/// waited most for which other on which device.
pub fn table_row(alloc: Global, window: Window<'_>, sums: &Sums) -> Result<String, AllocError> {
    let whole = sums.whole();
    let mut page = Page::new(alloc);
    page.put(&clock(alloc, window.from, window.origin)?);
    page.put("   ");
    page.put(&clock(alloc, window.until, window.origin)?);
    page.show(format_args!(" {:>10}", counted(alloc, whole.requests)?));
    page.show(format_args!(" {:>10}", span(alloc, window.round, whole.waited)?));
    for (part, width) in [
        (whole.avoidable(), 10),
        (whole.by_order(), 9),
        (whole.by_idle_slots(), 11),
    ] {
        page.show(format_args!(" {:>width$}", share(alloc, part, whole.live)?));
    }
    let p99 = u64::from(sums.rank(None, 990));
    page.show(format_args!(" {:>10}", span(alloc, window.round, p99)?));
    if whole.waited > 0 {
        page.put("  ");
        page.put(&costliest(alloc, sums)?);
    }
    page.put("\n");
    page.finish()
}

// Hours, minutes, seconds and tenths of a second since the capture began: the nearest.
fn clock(alloc: Global, time: u64, origin: u64) -> Result<String, AllocError> {
    let tenths = time.saturating_sub(origin).saturating_add(50_000_000) / 100_000_000;
    let seconds = tenths / 10;
    format!(in alloc;
        "{}:{:02}:{:02}.{}",
        seconds / 3_600,
        seconds / 60 % 60,
        seconds % 60,
        tenths % 10
    )
}

fn counted(alloc: Global, number: u64) -> Result<String, AllocError> {
    let mut page = Page::new(alloc);
    push_number(&mut page, number);
    page.finish()
}

fn span(alloc: Global, round: Span, rounds: u64) -> Result<String, AllocError> {
    let mut page = Page::new(alloc);
    let time = u128::from(nanoseconds(round)).saturating_mul(u128::from(rounds));
    push_nanoseconds(&mut page, time);
    page.finish()
}

fn share(alloc: Global, part: u64, whole: u64) -> Result<String, AllocError> {
    let mut page = Page::new(alloc);
    push_share(&mut page, part, whole);
    page.finish()
}

// The pair of drivers that cost most, and the device on which waiting cost most.
fn costliest(alloc: Global, sums: &Sums) -> Result<String, AllocError> {
    let mut page = Page::new(alloc);
    let mut cost = 0;
    let mut worst: Option<&Pair> = None;
    for (pair, blame) in sums.pairs() {
        if pair.by.is_some() && blame.cost > cost {
            cost = blame.cost;
            worst = Some(pair);
        }
    }
    if let Some(pair) = worst
        && let Some(by) = &pair.by
    {
        page.put(&shortened(alloc, &pair.waiting)?);
        page.put(" behind ");
        page.put(&if pair.waiting == *by {
            String::from_str(alloc, "itself")?
        } else {
            shortened(alloc, by)?
        });
    }
    let mut most = 0;
    let mut device = String::new(alloc);
    for (name, costs) in &sums.by_name(NameKind::Device)? {
        if costs.live > most {
            most = costs.live;
            device = String::from_str(alloc, name)?;
        }
    }
    if most > 0 {
        page.put(if worst.is_some() { " on " } else { "" });
        page.put(&shortened(alloc, &device)?);
    }
    page.finish()
}
