//! The bar of a stay in a range.

use crate::round_range::RoundRange;
use crate::scene::Scene;
use recording_file::NameKind;
use std::alloc::AllocError;
use wait_causes::{ExplainedStay, FirstWaits, InputKind};
use wording::{Page, push_number, push_range, push_round, push_rounds};

// How many of a stay's waits are listed one by one.
const LISTED: usize = 8;

/// Puts the bar of the stay at this place on the page: the rounds of this range that it waited, the round of its send, and
/// the mark where the best schedule sends it. All that is known of it stands where it is sent, with the name by which it is
/// linked to, or where not all bars are drawn.
pub(crate) fn push_bar(
    page: &mut Page,
    scene: &Scene,
    range: &RoundRange,
    place: usize,
) -> Result<(), AllocError> {
    let Some(stay) = scene.explanation.stays().get(place) else {
        return Ok(());
    };
    let is_sent = range.has(stay.live);
    if is_sent {
        page.show(format_args!("<g id='s{}-{}'><title>", stay.ccb, stay.attempt));
    } else {
        page.put("<g><title>");
    }
    push_stay_name(page, scene, stay);
    if is_sent || !scene.has_all {
        push_hover(page, scene, stay);
        let waits = scene.explanation.first_waits(scene.alloc, place, LISTED)?;
        push_waits(page, &waits);
    }
    page.put("</title>");
    push_waited(page, scene, range, stay);
    push_marks(page, range, stay);
    page.put("</g>");
    Ok(())
}

/// Puts the name of a stay on the page.
pub(crate) fn push_stay_name(page: &mut Page, scene: &Scene, stay: &ExplainedStay) {
    match scene.explanation.kind() {
        InputKind::Trace => page.show(format_args!("CCB {} try {}", stay.ccb, stay.attempt)),
        InputKind::Recording => page.show(format_args!("Request {}", stay.ccb)),
    }
}

// Puts the text of a stay on the page that is shown if the pointer is over it, up to its waits.
fn push_hover(page: &mut Page, scene: &Scene, stay: &ExplainedStay) {
    let unit = scene.explanation.unit();
    page.put(", ");
    scene.push_name(page, NameKind::Driver, u32::from(stay.driver));
    page.show(format_args!(
        ", priority {}, class {}: came in round ",
        stay.priority, stay.level
    ));
    push_round(page, unit, stay.arrival);
    page.put(", waited ");
    push_rounds(
        page,
        unit,
        u64::from(stay.live.saturating_sub(stay.arrival)),
    );
    page.show(format_args!(", sent in {}, best in {}, cost ", stay.live, stay.best));
    push_number(page, stay.cost());
}

// Puts the first waits on the page, each with its rounds and cause.
fn push_waits(page: &mut Page, waits: &FirstWaits) {
    let mut before = "\n";
    for wait in &waits.listed {
        page.put(before);
        push_range(page, wait.first, wait.last);
        page.words(&[" ", wait.cause.name()]);
        before = ", ";
    }
    if waits.more > 0 {
        page.show(format_args!(" and {} more", waits.more));
    }
}

// Puts the rounds of the range that the stay waited on the page, if there are some.
fn push_waited(page: &mut Page, scene: &Scene, range: &RoundRange, stay: &ExplainedStay) {
    let first = stay.arrival.max(range.first);
    let end = stay.live.min(range.last.saturating_add(1));
    if first < end {
        page.show(format_args!(
            "<path class='w v{} l{}' d='M{} 0h{}'/>",
            scene.rank(stay.driver),
            stay.level,
            range.offset(first),
            end.saturating_sub(first)
        ));
    }
}

// Puts the marks of the send and of the best schedule's send on the page, with a line to the one if it comes later.
fn push_marks(page: &mut Page, range: &RoundRange, stay: &ExplainedStay) {
    if range.has(stay.live) {
        let sent = range.offset(stay.live);
        page.show(format_args!("<path class='t' d='M{sent} 0h1'/>"));
        if stay.live < stay.best {
            let end = range.offset(stay.best.min(range.last)).saturating_add(1);
            page.show(format_args!("<path class='z' d='M{sent} 0H{end}'/>"));
        }
    }
    if range.has(stay.best) {
        let best = range.offset(stay.best);
        page.show(format_args!(
            "<path class='o' d='M{best}.5 0h0'/><path class='i' d='M{best}.5 0h0'/>"
        ));
    }
}
