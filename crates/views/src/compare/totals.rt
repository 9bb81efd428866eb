//! What all stays waited before and after, and what that cost.

use crate::behind::behind_rows;
use crate::pair::Pair;
use wait_causes::{CauseCosts, InputKind, Part, WaitCause};
use wording::{Page, push_share, shift};

/// Puts on the page how many stays there were, how long they waited and what that cost, before and after.
pub(crate) fn push_totals(page: &mut Page, before: &Part, after: &Part) {
    push_head(page, "");
    push_lines(page, &totals_of(before), &totals_of(after));
    if let (Some(was), Some(is)) = (before.pace, after.pace) {
        push_lines(page, &parts_of(before, was), &parts_of(after, is));
    }
}

// The parts of what a recording's waiting cost, and costs at the recorded pace.
fn parts_of(part: &Part, pace: u64) -> [(&'static str, u64); 3] {
    [
        ("by order", part.live.saturating_sub(pace)),
        ("by idle slots", pace.saturating_sub(part.best)),
        ("needed", part.best),
    ]
}

// The numbers of a part.
fn totals_of(part: &Part) -> [(&'static str, u64); 10] {
    [
        ("stays", u64::from(part.stays)),
        ("waited rounds", part.waited),
        ("live cost", part.live),
        ("best cost", part.best),
        ("excess", part.live.saturating_sub(part.best)),
        ("p50", u64::from(part.p50)),
        ("p90", u64::from(part.p90)),
        ("p99", u64::from(part.p99)),
        ("p99.9", u64::from(part.p999)),
        ("longest wait", u64::from(part.max)),
    ]
}

/// Puts on the page what the waiting cost by cause, and by what full rows sent.
pub(crate) fn push_causes(page: &mut Page, pair: &Pair<'_>, was: &Part, is: &Part) {
    push_head(page, "by cause");
    let causes = pair.before.explanation.kind().causes();
    for cause in &causes {
        push_cause(page, pair, *cause, &was.costs, &is.costs);
    }
    for cause in &pair.after.explanation.kind().causes() {
        if !causes.contains(cause) {
            push_cause(page, pair, *cause, &was.costs, &is.costs);
        }
    }
    push_head(page, "behind");
    push_lines(page, &behind_rows(was), &behind_rows(is));
}

// Puts the cost of a cause on the page, if it can hold before or after.
fn push_cause(
    page: &mut Page,
    pair: &Pair<'_>,
    cause: WaitCause,
    was: &CauseCosts,
    is: &CauseCosts,
) {
    if cause.can_hold(pair.before.net.config()) || cause.can_hold(pair.after.net.config()) {
        push_line(page, cause.name(), cost_of(was, cause), cost_of(is, cause));
    }
}

/// The cost of a cause.
pub(crate) fn cost_of(costs: &CauseCosts, cause: WaitCause) -> u64 {
    for kind in &[InputKind::Trace, InputKind::Recording] {
        for (other, cost) in &costs.by_cause(*kind) {
            if *other == cause {
                return *cost;
            }
        }
    }
    0
}

// Puts what stands above columns of numbers on the page.
fn push_head(page: &mut Page, name: &str) {
    page.show(format_args!(
        "\n{name:<18} {:>15} {:>15} {:>15}\n",
        "before", "after", "difference"
    ));
}

// Puts the numbers of two lists on the page, with their names.
fn push_lines(page: &mut Page, before: &[(&str, u64)], after: &[(&str, u64)]) {
    for ((name, was), (_, is)) in before.iter().zip(after) {
        push_line(page, name, *was, *is);
    }
}

// Puts two numbers and their difference on the page, and what that is of the first.
fn push_line(page: &mut Page, name: &str, before: u64, after: u64) {
    let difference = shift(before, after);
    page.show(format_args!("{name:<18} {before:>15} {after:>15} {difference:>15}"));
    if before > 0 && difference != 0 {
        page.put(if difference < 0 { "  -" } else { "  +" });
        push_share(page, before.abs_diff(after), before);
    }
    page.put("\n");
}
