//! What the waiting cost, in sentences.

use crate::scene::Scene;
use cam_types::Config;
use recording_file::Span;
use wait_causes::{Part, WaitCause};
use wording::{
    ByWeight, Page, push_number, push_numbers, push_rounds, push_share, push_signed, push_span,
};

/// Puts the sentences and totals on the page, with what the order by weight would have cost, if all are sent in time by it.
pub(crate) fn push_summary(page: &mut Page, scene: &Scene, by_weight: Option<&ByWeight>) {
    let (whole, rounds) = (&scene.whole, u64::from(scene.net.rounds()));
    page.put("<div id='summary'>\n<p>");
    push_waited(page, scene, rounds);
    match whole.pace {
        Some(pace) => push_parts(page, scene.explanation.unit(), whole, pace),
        None => push_avoidable(page, whole),
    }
    if let Some(made) = by_weight {
        push_by_weight(page, scene, made.cost);
    }
    page.put("</p>\n");
    if whole.live > 0 {
        page.put("<p>");
        push_costliest_cause(page, scene);
        push_behind(page, whole);
        page.put("</p>\n");
    }
    page.put("</div>\n");
    push_totals(page, whole, rounds);
    if !scene.net.config().has_standard_weights() {
        push_weights(page, scene.net.config());
    }
}

// Says what the order by weight would have cost.
fn push_by_weight(page: &mut Page, scene: &Scene, cost: u64) {
    let unit = match scene.whole.pace {
        Some(_) => scene.explanation.unit(),
        None => None,
    };
    page.put(" Had the heaviest gone first, as they came, it would have cost <b>");
    push_cost(page, unit, cost);
    page.put("</b>.");
}

// Says how many waited how long, and what that cost.
fn push_waited(page: &mut Page, scene: &Scene, rounds: u64) {
    let (whole, unit) = (&scene.whole, scene.explanation.unit());
    push_number(page, u64::from(whole.stays));
    page.put(if whole.stays == 1 {
        " request waited "
    } else {
        " requests waited "
    });
    push_rounds(page, unit, whole.waited);
    page.put(" in all, in ");
    push_rounds(page, unit, rounds);
    push_numbers(page, &[(". That cost ", whole.live)], " (live cost), ");
}

// Says what the best schedule costs.
fn push_avoidable(page: &mut Page, whole: &Part) {
    let excess = whole.live.saturating_sub(whole.best);
    if excess == 0 {
        page.put("and no schedule costs less: nothing was avoidable.");
        return;
    }
    push_numbers(page, &[("and the best schedule costs ", whole.best)], ": ");
    push_numbers(page, &[("<b>", excess)], "</b> were avoidable (excess), ");
    push_share(page, excess, whole.live);
    page.put(".");
}

// Says what of the cost of a recording was avoidable, by what.
fn push_parts(page: &mut Page, unit: Option<Span>, whole: &Part, pace: u64) {
    let (by_order, by_slots) = (
        whole.live.saturating_sub(pace),
        pace.saturating_sub(whole.best),
    );
    page.put("of which <b>");
    push_part(page, unit, whole, by_order, "</b> by order alone, ");
    page.put("; <b>");
    push_part(
        page,
        unit,
        whole,
        by_slots,
        "</b> by slots that stood idle, ",
    );
    page.put("; and <b>");
    push_part(page, unit, whole, whole.best, "</b> was needed, ");
    page.put(".");
}

// Puts a part of the cost on the page, with its share behind these words.
fn push_part(page: &mut Page, unit: Option<Span>, whole: &Part, cost: u64, words: &str) {
    push_cost(page, unit, cost);
    page.put(words);
    push_share(page, cost, whole.live);
}

// Puts a cost on the page: as time by weight, if it is known how long a round is, or else in weighted rounds.
fn push_cost(page: &mut Page, unit: Option<Span>, cost: u64) {
    match unit {
        Some(span) => push_span(page, span, cost),
        None => push_number(page, cost),
    }
}

// Says which cause cost most.
fn push_costliest_cause(page: &mut Page, scene: &Scene) {
    let mut costliest = (WaitCause::NotAsked, 0);
    for (cause, cost) in &scene.whole.costs.by_cause(scene.explanation.kind()) {
        if *cost > costliest.1 {
            costliest = (*cause, *cost);
        }
    }
    let (cause, cost) = costliest;
    page.words(&["Of the causes <b>", cause.name(), "</b> cost most"]);
    push_numbers(page, &[(": ", cost)], ", ");
    push_share(page, cost, scene.whole.live);
    page.put(". ");
}

// Says behind whom most was waited for full devices, adapters and links.
fn push_behind(page: &mut Page, whole: &Part) {
    let (behind, mut full) = (&whole.behind, 0u64);
    let mut most = ("less urgent requests", 0);
    for (words, cost) in &[
        ("less urgent requests", behind.less_urgent),
        ("equal ones", behind.equal),
        ("more urgent ones", behind.more_urgent),
    ] {
        full = full.saturating_add(*cost);
        if *cost > most.1 {
            most = (*words, *cost);
        }
    }
    if full > 0 {
        push_numbers(
            page,
            &[("Full devices, adapters and links cost ", full)],
            ", most of it behind <b>",
        );
        page.put(most.0);
        push_numbers(page, &[("</b>: ", most.1)], ", ");
        push_share(page, most.1, full);
        page.put(".");
    }
}

// Puts the totals on the page.
fn push_totals(page: &mut Page, whole: &Part, rounds: u64) {
    push_numbers(
        page,
        &[
            (
                "<dl id='totals'><div><dt>stays</dt><dd>",
                u64::from(whole.stays),
            ),
            ("</dd></div><div><dt>rounds</dt><dd>", rounds),
            ("</dd></div><div><dt>waited rounds</dt><dd>", whole.waited),
            ("</dd></div><div><dt>live cost</dt><dd>", whole.live),
            ("</dd></div><div><dt>best cost</dt><dd>", whole.best),
        ],
        "</dd></div><div><dt>excess</dt><dd>",
    );
    push_signed(page, whole.excess());
    page.put("</dd></div></dl>\n");
}

// Puts what a round of waiting costs by priority on the page.
fn push_weights(page: &mut Page, config: &Config) {
    page.put("<p>What a round of waiting costs, by priority:</p><dl id='weights'>");
    let mut first = 0;
    for row in config.weights() {
        page.show(format_args!(
            "<div><dt>{first}-{}</dt><dd>{}</dd></div>",
            row.last, row.weight
        ));
        first = row.last.saturating_add(1);
    }
    page.put("</dl>\n");
}
