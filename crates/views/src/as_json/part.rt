//! What some stays waited, and what that cost.

use crate::as_json::causes::{put_cause_shifts, put_causes};
use crate::as_json::members::{Value, if_known, put_inner, put_member, put_values};
use crate::compared::Compared;
use serde::Serializer;
use wait_causes::{Latency, Part};
use wording::shift;

/// How many rounds the stays of a part waited: together, and the median, 90 %, 99 %, 99.9 % and longest wait.
pub(crate) fn waits_of(part: &Part) -> [(&'static str, u64); 6] {
    [
        ("waited", part.waited),
        ("p50", u64::from(part.p50)),
        ("p90", u64::from(part.p90)),
        ("p99", u64::from(part.p99)),
        ("p999", u64::from(part.p999)),
        ("max", u64::from(part.max)),
    ]
}

// What full rows cost, by what they sent.
fn behind_of(part: &Part) -> [(&'static str, u64); 3] {
    [
        ("less_urgent", part.behind.less_urgent),
        ("equal", part.behind.equal),
        ("more_urgent", part.behind.more_urgent),
    ]
}

/// Writes what the waiting of a part of an input cost in weighted rounds: as it was, of a recording in the best schedule at the
/// recorded pace, in the best one, the excess, and the live cost by cause and, of full resources, by what they sent; and the
/// latency, if completions are known.
pub(crate) fn put_costs<S: Serializer>(
    out: &mut S,
    input: Compared<'_>,
    part: &Part,
) -> Result<(), S::Error> {
    put_values(
        out,
        &[
            ("live", Value::Number(part.live)),
            ("pace", if_known(part.pace)),
            ("best", Value::Number(part.best)),
            ("excess", Value::Difference(part.excess())),
        ],
    )?;
    put_causes(out, input, &part.costs)?;
    put_inner(out, "full_behind", &behind_of(part))?;
    match &part.latency {
        Some(latency) => put_inner(out, "latency", &latency_of(latency)),
        None => Ok(()),
    }
}

// Of how many requests of a part the completion is known, and the rounds from their arrivals to it.
fn latency_of(latency: &Latency) -> [(&'static str, u32); 6] {
    [
        ("stays", latency.stays),
        ("p50", latency.p50),
        ("p90", latency.p90),
        ("p99", latency.p99),
        ("p999", latency.p999),
        ("max", latency.max),
    ]
}

/// Writes an object of how much more each number of a part is after a change as a member of the object that is open.
pub(crate) fn put_shifts<S: Serializer>(
    out: &mut S,
    before: &Part,
    after: &Part,
) -> Result<(), S::Error> {
    out.key("difference")?;
    out.begin_map(None)?;
    let (stays, stays_after) = (u64::from(before.stays), u64::from(after.stays));
    put_member(out, "stays", &shift(stays, stays_after))?;
    put_differences(out, &waits_of(before), &waits_of(after))?;
    put_cost_shifts(out, before, after)?;
    put_cause_shifts(out, &before.costs, &after.costs)?;
    put_behind_shifts(out, before, after)?;
    out.end_map()
}

// Writes how much more full rows cost after a change, as a member of the object that is open.
fn put_behind_shifts<S: Serializer>(
    out: &mut S,
    before: &Part,
    after: &Part,
) -> Result<(), S::Error> {
    out.key("full_behind")?;
    out.begin_map(None)?;
    put_differences(out, &behind_of(before), &behind_of(after))?;
    out.end_map()
}

// Writes members of the object that is open: how much more the waiting of a part costs after a change.
fn put_cost_shifts<S: Serializer>(
    out: &mut S,
    before: &Part,
    after: &Part,
) -> Result<(), S::Error> {
    let (live, best) = (
        shift(before.live, after.live),
        shift(before.best, after.best),
    );
    let pace = match (before.pace, after.pace) {
        (Some(was), Some(is)) => Value::Difference(shift(was, is)),
        _ => Value::Absent,
    };
    put_values(
        out,
        &[
            ("live", Value::Difference(live)),
            ("pace", pace),
            ("best", Value::Difference(best)),
            ("excess", Value::Difference(live.saturating_sub(best))),
        ],
    )
}

// Writes members of the object that is open: how much more each number is than that of the same place before.
fn put_differences<S: Serializer>(
    out: &mut S,
    before: &[(&str, u64)],
    after: &[(&str, u64)],
) -> Result<(), S::Error> {
    for ((key, was), (_, is)) in before.iter().zip(after) {
        put_member(out, key, &shift(*was, *is))?;
    }
    Ok(())
}
