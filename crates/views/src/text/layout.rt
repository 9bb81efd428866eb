//! The page: what the waiting cost and why, and the stays that cost most.

use crate::behind::behind_rows;
use crate::capture_facts::{CaptureFacts, facts_warnings};
use crate::limited::Limited;
use crate::text::blame_table::{push_blame, push_worst_pair};
use crate::text::columns::push_spelled;
use crate::text::freezes::push_freezes;
use crate::text::level_waits::push_level_waits;
use crate::text::limits::push_limits;
use crate::text::stays::push_stays;
use crate::text::tables::push_tables;
use crate::text::totals::{push_by_weight, push_totals};
use crate::text::weights::push_weights;
use crate::text::worst::push_worst;
use cam_types::Config;
use recording_file::Span;
use round_net::Net;
use std::alloc::{AllocError, Global};
use wait_causes::{
    BlameRow, ExplainedStay, Explanation, Freeze, Grouping, InputKind, Part, blame_of,
};
use wording::{
    ByWeight, Captions, LevelWaits, Page, level_waits, places_from_greatest, plain_words,
};

// What stands below the costs by cause.
const NO_SAVING: &str =
    "\nWhat a cause cost isn't what would be saved without it: the same stays may then wait for another cause.\n";

/// The page on an explanation: what to beware of, if it is known how the capture was read, what the waiting cost, of a recording in its
/// three parts, how these limits were kept, the weights if they aren't the standard ones,
/// the pair of drivers, the stay, the device and the freeze that cost most, the cost by cause and by what full rows sent, tables by adapter, device, driver and run level,
/// percentiles of the waits of each run level as recorded, by weight if all are sent in time so, and in the best schedule, and at most `top`
/// of the freezes and of the stays that cost most, these with the causes of their rounds, and who waited for whom, if that is asked for. Costs are weighted rounds;
/// where it is known how long a round is, and times are wanted, the waits of a recording are times.
pub fn page(
    alloc: Global,
    net: &Net,
    explanation: &Explanation,
    limits: &[Limited<'_>],
    top: usize,
    has_times: bool,
    has_blame: bool,
    by_weight: Option<&ByWeight>,
    facts: Option<&CaptureFacts>,
) -> Result<String, AllocError> {
    let mut page = Page::new(alloc);
    push_warnings(alloc, &mut page, facts)?;
    let (config, whole) = (net.config(), explanation.whole(alloc)?);
    let unit = if has_times { explanation.unit() } else { None };
    push_whole(alloc, &mut page, unit, net.rounds(), &whole, by_weight)?;
    push_limits(alloc, &mut page, limits)?;
    push_weights(&mut page, config);
    let captions = Captions::of(config, explanation);
    let drivers = blame_of(alloc, explanation, Grouping::Driver)?;
    push_worst_pair(&mut page, captions, unit, &drivers);
    let waits = level_waits(alloc, explanation, by_weight)?;
    push_costs(
        alloc,
        &mut page,
        captions,
        explanation,
        &whole,
        &waits,
        top,
        unit,
    )?;
    if has_blame {
        push_blames(alloc, &mut page, captions, explanation, unit, &drivers)?;
    }
    page.finish()
}

// Puts a line on the page for each thing to beware of.
fn push_warnings(
    alloc: Global,
    page: &mut Page,
    facts: Option<&CaptureFacts>,
) -> Result<(), AllocError> {
    if let Some(facts) = facts {
        for warning in &facts_warnings(alloc, facts)? {
            page.words(&["warning: ", warning, "\n"]);
        }
    }
    Ok(())
}

// Puts what the waiting cost on the page, and what it would have cost by weight.
fn push_whole(
    alloc: Global,
    page: &mut Page,
    unit: Option<Span>,
    rounds: u32,
    whole: &Part,
    by_weight: Option<&ByWeight>,
) -> Result<(), AllocError> {
    push_totals(alloc, page, unit, rounds, whole)?;
    match by_weight {
        Some(made) => push_by_weight(alloc, page, unit, whole, made.cost),
        None => Ok(()),
    }
}

// Puts who was in the way of whom on the page, by drivers and by run levels.
fn push_blames(
    alloc: Global,
    page: &mut Page,
    captions: Captions<'_>,
    explanation: &Explanation,
    unit: Option<Span>,
    drivers: &[BlameRow],
) -> Result<(), AllocError> {
    page.put("\nWho was in the way of whom:\n");
    push_blame(alloc, page, captions, unit, Grouping::Driver, drivers)?;
    let levels = blame_of(alloc, explanation, Grouping::Level)?;
    push_blame(alloc, page, captions, unit, Grouping::Level, &levels)
}

// Puts what cost most on the page, and the cost by cause and in tables.
fn push_costs(
    alloc: Global,
    page: &mut Page,
    captions: Captions<'_>,
    explanation: &Explanation,
    whole: &Part,
    waits: &[LevelWaits],
    top: usize,
    unit: Option<Span>,
) -> Result<(), AllocError> {
    let (stays, freezes) = (explanation.stays(), explanation.freezes(alloc)?);
    let worst_stays = worst_stays(alloc, stays)?;
    let worst_freezes = worst_freezes(alloc, &freezes)?;
    push_worst(
        alloc,
        page,
        captions,
        explanation,
        unit,
        first_of(stays, &worst_stays),
        first_of(&freezes, &worst_freezes),
    )?;
    push_parts(alloc, page, captions, explanation, whole, waits, unit)?;
    push_freezes(alloc, page, captions, &freezes, &worst_freezes, top)?;
    push_stays(alloc, page, captions, explanation, unit, &worst_stays, top)
}

// Puts the cost by cause and in tables on the page, and how long the stays of each run level wait.
fn push_parts(
    alloc: Global,
    page: &mut Page,
    captions: Captions<'_>,
    explanation: &Explanation,
    whole: &Part,
    waits: &[LevelWaits],
    unit: Option<Span>,
) -> Result<(), AllocError> {
    push_causes(
        alloc,
        page,
        captions.config(),
        explanation.kind(),
        whole,
        unit,
    )?;
    push_behind(alloc, page, whole, unit)?;
    push_tables(alloc, page, captions, explanation, unit)?;
    page.put("\nHow long they wait as recorded, by weight and in the best schedule:\n\n");
    push_level_waits(alloc, page, captions, waits, unit)
}

// The places of the stays, those that cost most first.
fn worst_stays(alloc: Global, stays: &[ExplainedStay]) -> Result<Vec<usize>, AllocError> {
    let mut costs = Vec::with_capacity(alloc, stays.len())?;
    for stay in stays {
        costs.push(stay.cost())?;
    }
    costliest_first(alloc, &costs)
}

// The places of the freezes, those that cost most first.
fn worst_freezes(alloc: Global, freezes: &[Freeze]) -> Result<Vec<usize>, AllocError> {
    let mut costs = Vec::with_capacity(alloc, freezes.len())?;
    for freeze in freezes {
        costs.push(freeze.cost)?;
    }
    costliest_first(alloc, &costs)
}

// The places of the costs above 0, most first; of equal ones the earlier.
fn costliest_first(alloc: Global, costs: &[u64]) -> Result<Vec<usize>, AllocError> {
    let mut places = places_from_greatest(alloc, costs)?;
    places.truncate(costs.iter().filter(|cost| **cost > 0).count());
    Ok(places)
}

// The item at the first of these places.
fn first_of<'a, T>(items: &'a [T], places: &[usize]) -> Option<&'a T> {
    items.get(*places.first()?)
}

// Puts the costs by cause on the page.
fn push_causes(
    alloc: Global,
    page: &mut Page,
    config: &Config,
    kind: InputKind,
    whole: &Part,
    unit: Option<Span>,
) -> Result<(), AllocError> {
    page.put("\nWhat the waiting cost, by cause:\n\n");
    for (cause, cost) in &whole.costs.by_cause(kind) {
        if cause.can_hold(config) {
            let words = plain_words(kind, whole.latency.is_some(), *cause);
            push_cost(alloc, page, unit, cause.name(), *cost, words)?;
        }
    }
    page.put(NO_SAVING);
    Ok(())
}

// Puts the costs of full rows on the page, by what they sent.
fn push_behind(
    alloc: Global,
    page: &mut Page,
    whole: &Part,
    unit: Option<Span>,
) -> Result<(), AllocError> {
    page.put(
        "\nWhat it cost to wait for a full device, adapter or link, by what that sent in the round:\n\n",
    );
    for (name, cost) in &behind_rows(whole) {
        push_cost(alloc, page, unit, name, *cost, "")?;
    }
    Ok(())
}

// A line on a cost: in weighted rounds, and in time, if that is known.
fn push_cost(
    alloc: Global,
    page: &mut Page,
    unit: Option<Span>,
    name: &str,
    cost: u64,
    words: &str,
) -> Result<(), AllocError> {
    page.show(format_args!("  {name:<18} {cost:>9}"));
    if unit.is_some() {
        page.put("  ");
        push_spelled(alloc, page, unit, cost, 8)?;
    }
    if !words.is_empty() {
        page.show(format_args!("  {words}"));
    }
    page.put("\n");
    Ok(())
}
