//! The tables of the page: what adapters, devices, drivers and run levels waited.

use crate::behind::behind_rows;
use crate::tables::{GROUPINGS, tables_of};
use crate::text::columns::{push_caption, push_columns, push_spelled};
use cam_types::Config;
use recording_file::Span;
use std::alloc::{AllocError, Global};
use wait_causes::{Explanation, InputKind, Part, Row, WaitCause};
use wording::{Captions, Page, shift};

// What stands above the columns of waits of a trace, and of a recording.
const TRACE_WAITS: &str =
    "stays  waited   p50   p90   p99 p99.9   max      live      best    excess";

const RECORDING_WAITS: &str =
    "requests   waited      p50      p90      p99    p99.9      max       cost   by order    by idle     needed";

// What stands above the columns of latencies.
const LATENCIES: &str = "requests      p50      p90      p99    p99.9      max";

// What stands above the columns of costs of a trace and of a recording, before those of links and the last four.
const TRACE_COSTS: &str = "    error    caller  a.frozen    d.full    a.full";

const RECORDING_COSTS: &str = "d.stopped a.stopped    d.full    a.full";

const LINKED_COSTS: &str = "d.stopped a.stopped l.stopped    d.full    a.full";

// What stands above the last columns.
const LAST_COSTS: &str = "  unasked      less     equal      more";

// The columns of a table.
#[derive(Clone, Copy)]
enum Columns {
    // How long stays waited, and what it cost.
    Waits(Option<Span>),
    // How long it was from their arrivals to their completions.
    Latencies(Option<Span>),
    // What it cost by the causes of such an input, and by what full rows sent.
    Costs(InputKind),
}

/// Puts the tables on the page: how long the stays of each adapter, device, driver and run level waited, how long it was to their
/// completions, if these are known, and then what the waiting cost by cause and by what full rows sent.
pub(crate) fn push_tables(
    alloc: Global,
    page: &mut Page,
    captions: Captions<'_>,
    explanation: &Explanation,
    unit: Option<Span>,
) -> Result<(), AllocError> {
    let (tables, kind) = (tables_of(alloc, explanation)?, explanation.kind());
    page.put("\n");
    match kind {
        InputKind::Trace => push_head(page, captions, &[TRACE_WAITS]),
        InputKind::Recording => push_head(page, captions, &[RECORDING_WAITS]),
    }
    push_rows(alloc, page, captions, &tables, Columns::Waits(unit))?;
    if has_latencies(&tables) {
        page.put("\nFrom arrival to completion:\n\n");
        push_head(page, captions, &[LATENCIES]);
        push_rows(alloc, page, captions, &tables, Columns::Latencies(unit))?;
    }
    push_cost_head(page, captions, kind);
    push_rows(alloc, page, captions, &tables, Columns::Costs(kind))
}

// What stands above columns, behind those of captions.
fn push_head(page: &mut Page, captions: Captions<'_>, words: &[&str]) {
    page.show(format_args!("{:<width$} ", "", width = captions.width()));
    page.words(words);
    page.put("\n");
}

// Whether completions are known.
fn has_latencies(tables: &[Vec<Row>]) -> bool {
    for rows in tables {
        for row in rows {
            if row.part.latency.is_some() {
                return true;
            }
        }
    }
    false
}

// Puts these columns of all rows on the page.
fn push_rows(
    alloc: Global,
    page: &mut Page,
    captions: Captions<'_>,
    tables: &[Vec<Row>],
    columns: Columns,
) -> Result<(), AllocError> {
    for ((by, _, _), rows) in GROUPINGS.iter().zip(tables) {
        for row in rows {
            push_caption(alloc, page, captions, *by, row.number, captions.width())?;
            push_row(alloc, page, captions, &row.part, columns)?;
        }
    }
    Ok(())
}

// Puts these columns of a row on the page.
fn push_row(
    alloc: Global,
    page: &mut Page,
    captions: Captions<'_>,
    part: &Part,
    columns: Columns,
) -> Result<(), AllocError> {
    match columns {
        Columns::Waits(unit) => push_waits(alloc, page, unit, part)?,
        Columns::Latencies(unit) => push_latencies(alloc, page, unit, part)?,
        Columns::Costs(kind) => push_costs(page, captions.config(), kind, part),
    }
    page.put("\n");
    Ok(())
}

// How long the stays of a row waited, and what that cost.
fn push_waits(
    alloc: Global,
    page: &mut Page,
    unit: Option<Span>,
    part: &Part,
) -> Result<(), AllocError> {
    let Some(pace) = part.pace else {
        push_traced(page, part);
        return Ok(());
    };
    page.show(format_args!(" {:>8}", part.stays));
    page.put(" ");
    push_spelled(alloc, page, unit, part.waited, 8)?;
    let ranks = [part.p50, part.p90, part.p99, part.p999, part.max];
    push_ranks(alloc, page, unit, &ranks)?;
    push_columns(
        page,
        &[
            (10, i128::from(part.live)),
            (10, shift(pace, part.live)),
            (10, shift(part.best, pace)),
            (10, i128::from(part.best)),
        ],
    );
    Ok(())
}

// How long it was from the arrivals of a row's requests to their completions.
fn push_latencies(
    alloc: Global,
    page: &mut Page,
    unit: Option<Span>,
    part: &Part,
) -> Result<(), AllocError> {
    let Some(latency) = &part.latency else {
        return Ok(());
    };
    page.show(format_args!(" {:>8}", latency.stays));
    let ranks = [
        latency.p50,
        latency.p90,
        latency.p99,
        latency.p999,
        latency.max,
    ];
    push_ranks(alloc, page, unit, &ranks)
}

// Rounds, or times where a round has one, flush right after a space each.
fn push_ranks(
    alloc: Global,
    page: &mut Page,
    unit: Option<Span>,
    ranks: &[u32],
) -> Result<(), AllocError> {
    for rank in ranks {
        page.put(" ");
        push_spelled(alloc, page, unit, u64::from(*rank), 8)?;
    }
    Ok(())
}

// How long the stays of a row of a trace waited.
fn push_traced(page: &mut Page, part: &Part) {
    push_columns(
        page,
        &[
            (5, i128::from(part.stays)),
            (7, i128::from(part.waited)),
            (5, i128::from(part.p50)),
            (5, i128::from(part.p90)),
            (5, i128::from(part.p99)),
            (5, i128::from(part.p999)),
            (5, i128::from(part.max)),
            (9, i128::from(part.live)),
            (9, i128::from(part.best)),
            (9, part.excess()),
        ],
    );
}

// What stands above the columns of costs.
fn push_cost_head(page: &mut Page, captions: Captions<'_>, kind: InputKind) {
    let has_links = WaitCause::LinkFull.can_hold(captions.config());
    let costs = match kind {
        InputKind::Trace => TRACE_COSTS,
        InputKind::Recording if has_links => LINKED_COSTS,
        InputKind::Recording => RECORDING_COSTS,
    };
    let link_full = if has_links { "    l.full" } else { "" };
    page.put("\n");
    push_head(page, captions, &[costs, link_full, " ", LAST_COSTS]);
}

// What the stays of a row cost.
fn push_costs(page: &mut Page, config: &Config, kind: InputKind, part: &Part) {
    for (cause, cost) in &part.costs.by_cause(kind) {
        if cause.can_hold(config) {
            push_columns(page, &[(9, i128::from(*cost))]);
        }
    }
    for (_, cost) in &behind_rows(part) {
        push_columns(page, &[(9, i128::from(*cost))]);
    }
}
