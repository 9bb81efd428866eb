//! Limits of latency.

use crate::limited::Limited;
use std::alloc::{AllocError, Global};
use wording::{Page, push_numbers, shown_name};

/// Puts on the page how each limit was kept, if one was asked for.
pub(crate) fn push_limits(
    alloc: Global,
    page: &mut Page,
    limits: &[Limited<'_>],
) -> Result<(), AllocError> {
    if limits.is_empty() {
        return Ok(());
    }
    page.put("\nLatencies, from arrival to completion:\n\n");
    for limit in limits {
        let counts = limit.counts;
        let kept = if counts.met { "met" } else { "missed" };
        let word = shown_name(alloc, limit.word)?;
        page.show(format_args!("  {word:<24} {kept:<6}"));
        push_numbers(
            page,
            &[
                ("  ", u64::from(counts.over)),
                (" of ", u64::from(counts.requests)),
                (" took longer: ", u64::from(counts.by_order)),
                (" by order, ", u64::from(counts.by_slots)),
                (" by idle slots, ", u64::from(counts.device)),
            ],
            " by the device\n",
        );
    }
    Ok(())
}
