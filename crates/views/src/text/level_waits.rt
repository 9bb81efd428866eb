//! How long the stays of each run level wait by three schedules.

use crate::text::columns::{push_caption, push_spelled};
use recording_file::Span;
use std::alloc::{AllocError, Global};
use wait_causes::Grouping;
use wording::{Captions, LevelWaits, Page, WaitRanks};

// What stands above the waits: a column has 9 characters, after 16 for the run level.
const HEAD: &str = "\
waits                              recorded                  by weight                       best
                      p50      p99    p99.9      p50      p99    p99.9      p50      p99    p99.9
";

/// Puts the percentiles of the waits of each run level on the page: as recorded, by weight, and in the best schedule.
pub(crate) fn push_level_waits(
    alloc: Global,
    page: &mut Page,
    captions: Captions<'_>,
    waits: &[LevelWaits],
    unit: Option<Span>,
) -> Result<(), AllocError> {
    page.put(HEAD);
    for level in waits {
        push_caption(alloc, page, captions, Grouping::Level, level.level, 16)?;
        push_level(alloc, page, level, unit)?;
    }
    Ok(())
}

// Puts the percentiles of a run level on the page.
fn push_level(
    alloc: Global,
    page: &mut Page,
    level: &LevelWaits,
    unit: Option<Span>,
) -> Result<(), AllocError> {
    push_ranks(alloc, page, Some(level.recorded), unit)?;
    push_ranks(alloc, page, level.by_weight, unit)?;
    push_ranks(alloc, page, Some(level.best), unit)?;
    page.put("\n");
    Ok(())
}

// Puts percentiles on the page, or that there are none.
fn push_ranks(
    alloc: Global,
    page: &mut Page,
    ranks: Option<WaitRanks>,
    unit: Option<Span>,
) -> Result<(), AllocError> {
    let Some(ranks) = ranks else {
        page.put("        -        -        -");
        return Ok(());
    };
    for wait in &[ranks.p50, ranks.p99, ranks.p999] {
        push_spelled(alloc, page, unit, u64::from(*wait), 9)?;
    }
    Ok(())
}
