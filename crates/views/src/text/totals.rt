//! What the waiting cost, at the top of the page.

use crate::text::columns::push_spelled;
use recording_file::Span;
use std::alloc::{AllocError, Global};
use wait_causes::Part;
use wording::{Page, nanoseconds, push_nanoseconds, push_numbers, push_share, push_span};

// What the order by weight is.
const BY_WEIGHT: &str = "the heaviest first as they came, which needs no hindsight";

/// Puts what the waiting cost beside the other schedules on the page, by our words and by those of who looks after storage. Where it is
/// known how long a round is, a recording has times.
pub(crate) fn push_totals(
    alloc: Global,
    page: &mut Page,
    unit: Option<Span>,
    rounds: u32,
    whole: &Part,
) -> Result<(), AllocError> {
    match whole.pace {
        Some(pace) => {
            push_requests(alloc, page, unit, rounds, whole)?;
            push_costs(alloc, page, unit, whole, pace)
        }
        None => {
            push_traced(page, whole);
            Ok(())
        }
    }
}

/// Puts what the waiting would have cost by weight on the page.
pub(crate) fn push_by_weight(
    alloc: Global,
    page: &mut Page,
    unit: Option<Span>,
    whole: &Part,
    cost: u64,
) -> Result<(), AllocError> {
    match whole.pace {
        Some(_) => push_named(alloc, page, unit, "by weight", cost)?,
        None => push_line(page, "by weight", cost, "  "),
    }
    push_meaning(page, unit, BY_WEIGHT, cost);
    Ok(())
}

// Those of a trace.
fn push_traced(page: &mut Page, whole: &Part) {
    let excess = whole.live.saturating_sub(whole.best);
    push_line(
        page,
        "stays",
        u64::from(whole.stays),
        "  requests in a queue\n",
    );
    push_line(page, "waited rounds", whole.waited, "\n");
    push_line(
        page,
        "live cost",
        whole.live,
        "  the recorded wait, by weight\n",
    );
    push_line(page, "best cost", whole.best, "  the least possible\n");
    push_line(page, "excess", excess, "  avoidable");
    if whole.live > 0 {
        page.put(", ");
        push_share(page, excess, whole.live);
    }
    page.put("\n");
}

// A number of a trace with its name before it, and these words behind it.
fn push_line(page: &mut Page, name: &str, number: u64, words: &str) {
    page.show(format_args!("{name:<13} {number:>9}{words}"));
}

// A number of a recording with its name before it.
fn push_named(
    alloc: Global,
    page: &mut Page,
    unit: Option<Span>,
    name: &str,
    rounds: u64,
) -> Result<(), AllocError> {
    page.show(format_args!("{name:<15} "));
    push_spelled(alloc, page, unit, rounds, 10)?;
    page.put("  ");
    Ok(())
}

// What a cost is, to the end of its line: where it was shown as a time, with its weighted rounds.
fn push_meaning(page: &mut Page, unit: Option<Span>, words: &str, cost: u64) {
    page.put(words);
    if unit.is_some() {
        push_numbers(page, &[(" (", cost)], ")");
    }
    page.put("\n");
}

// How many requests a recording has, in how many rounds, and how long they waited.
fn push_requests(
    alloc: Global,
    page: &mut Page,
    unit: Option<Span>,
    rounds: u32,
    whole: &Part,
) -> Result<(), AllocError> {
    page.show(format_args!("{:<15} {:>10}  in {rounds} rounds", "requests", whole.stays));
    if let Some(span) = unit {
        page.put(" of ");
        push_span(page, span, 1);
    }
    page.put("\nwaited          ");
    push_spelled(alloc, page, unit, whole.waited, 10)?;
    push_average(page, unit, whole);
    page.put("\n");
    Ok(())
}

// How long a request waited on the average, if it is known how long a round is.
fn push_average(page: &mut Page, unit: Option<Span>, whole: &Part) {
    match unit {
        Some(span) if whole.stays > 0 => {
            let all = u128::from(nanoseconds(span)).saturating_mul(u128::from(whole.waited));
            page.put("  ");
            push_nanoseconds(page, all / u128::from(whole.stays.max(1)));
            page.put(" on the average");
        }
        Some(_) => {}
        None => page.put("  rounds"),
    }
}

// What the waiting of a recording cost, and the three parts of that.
fn push_costs(
    alloc: Global,
    page: &mut Page,
    unit: Option<Span>,
    whole: &Part,
    pace: u64,
) -> Result<(), AllocError> {
    let (by_order, by_slots) = (
        whole.live.saturating_sub(pace),
        pace.saturating_sub(whole.best),
    );
    push_named(alloc, page, unit, "cost", whole.live)?;
    push_meaning(
        page,
        unit,
        "what was waited, each request by its weight",
        whole.live,
    );
    push_part(
        alloc,
        page,
        unit,
        whole,
        "  by order",
        by_order,
        "avoidable by another order alone",
    )?;
    push_part(
        alloc,
        page,
        unit,
        whole,
        "  by idle slots",
        by_slots,
        "avoidable by starts that there was room for",
    )?;
    push_part(
        alloc,
        page,
        unit,
        whole,
        "  needed",
        whole.best,
        "the least that the devices allow",
    )
}

// A part of the cost, with its share in the whole.
fn push_part(
    alloc: Global,
    page: &mut Page,
    unit: Option<Span>,
    whole: &Part,
    name: &str,
    cost: u64,
    words: &str,
) -> Result<(), AllocError> {
    push_named(alloc, page, unit, name, cost)?;
    if whole.live > 0 {
        push_share(page, cost, whole.live);
        page.put(", ");
    }
    push_meaning(page, unit, words, cost);
    Ok(())
}
