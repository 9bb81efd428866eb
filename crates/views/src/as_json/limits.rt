//! Limits of latency, and how they were kept.

use crate::as_json::members::{begin_list, put_member, put_members};
use crate::limited::Limited;
use serde::Serializer;

/// Writes how the limits that were asked for were kept as a member of the object that is open, in their order, if there are some.
pub(crate) fn put_limits<S: Serializer>(
    out: &mut S,
    limits: &[Limited<'_>],
) -> Result<(), S::Error> {
    if limits.is_empty() {
        return Ok(());
    }
    begin_list(out, "slo", limits.len())?;
    for limit in limits {
        put_limit(out, limit)?;
    }
    out.end_seq()
}

fn put_limit<S: Serializer>(out: &mut S, limit: &Limited<'_>) -> Result<(), S::Error> {
    let counts = limit.counts;
    out.begin_map(Some(7))?;
    put_member(out, "limit", &limit.word)?;
    put_members(
        out,
        &[
            ("requests", counts.requests),
            ("over", counts.over),
            ("by_order", counts.by_order),
            ("by_slots", counts.by_slots),
            ("device", counts.device),
        ],
    )?;
    put_member(out, "met", &counts.met)?;
    out.end_map()
}
