//! What cost most: a part of each kind, and stays.

use crate::alike::{Figure, alike_from};
use crate::bars::push_stay_name;
use crate::blame_table::push_blame;
use crate::choice::Choice;
use crate::scene::{Scene, parts_by_cost};
use recording_file::{NameKind, Span};
use std::alloc::AllocError;
use wait_causes::{ExplainedStay, Grouping, Row};
use wording::{
    Page, items_at, places_from_greatest, push_end, push_number, push_numbers, push_range,
    push_share, push_signed, push_span,
};

// How many rows of stays are listed.
const LISTED: usize = 10;

// What stands above the parts, and above the stays.
const PARTS: &str = "<section id='costliest'><h2>What cost most</h2>\n\
<table class='narrow' id='parts'><caption>The costliest of each kind</caption><thead><tr><th scope='col'>part</th><th scope='col'>live</th>\
<th scope='col'>share</th><th scope='col'>best</th><th scope='col'>excess</th></tr></thead><tbody>\n";

const STAYS: &str =
    "<table class='wide' id='stays'><caption>The requests whose waiting cost most; those of one device, driver, class and main cause \
that cost nearly the same share a row</caption><thead><tr>\
<th scope='col'>request</th><th scope='col'>device</th><th scope='col'>driver</th><th scope='col'>priority</th>\
<th scope='col'>arrival</th><th scope='col'>sent</th><th scope='col'>best</th><th scope='col'>waited</th>\
<th scope='col'>cost</th><th scope='col'>why</th></tr></thead><tbody>\n";

/// Puts the costliest part of each kind on the page, and the costliest stays.
pub(crate) fn push_costliest(
    page: &mut Page,
    scene: &Scene,
    choice: &Choice,
) -> Result<(), AllocError> {
    page.put(PARTS);
    for by in &[
        Grouping::Device,
        Grouping::Adapter,
        Grouping::Driver,
        Grouping::Level,
    ] {
        if let Some(row) = parts_by_cost(scene.alloc, scene.explanation, *by)?.first() {
            push_part(page, scene, *by, row);
        }
    }
    page.put("</tbody></table>\n");
    push_blame(page, scene)?;
    page.put(STAYS);
    push_stays(page, scene, choice)?;
    page.put("</tbody></table>\n</section>\n");
    Ok(())
}

// Puts the row of the costliest part of a kind on the page.
fn push_part(page: &mut Page, scene: &Scene, by: Grouping, row: &Row) {
    let part = &row.part;
    page.put("<tr><th scope='row'>");
    scene.push_part(page, by, row.number);
    push_numbers(page, &[("</th><td>", part.live)], "</td><td>");
    push_share(page, part.live, scene.whole.live);
    push_numbers(page, &[("</td><td>", part.best)], "</td><td>");
    push_signed(page, part.excess());
    page.put("</td></tr>\n");
}

// Puts the rows of the costliest stays on the page, as far as they cost anything: those that are alike in one row.
fn push_stays(page: &mut Page, scene: &Scene, choice: &Choice) -> Result<(), AllocError> {
    let (mut stays, mut costs) = (Vec::new(scene.alloc), Vec::new(scene.alloc));
    for stay in scene.explanation.stays() {
        if stay.cost() > 0 {
            stays.push(stay)?;
            costs.push(stay.cost())?;
        }
    }
    let places = places_from_greatest(scene.alloc, &costs)?;
    let stays = items_at(scene.alloc, &stays, &places)?;
    let mut place = 0usize;
    for _ in 0..LISTED {
        let row = alike_from(scene.explanation.kind(), &stays, place);
        push_row(page, scene, choice, row);
        place = place.saturating_add(row.len());
    }
    Ok(())
}

// Puts the row of stays that are alike on the page, the costliest of which comes first.
fn push_row(page: &mut Page, scene: &Scene, choice: &Choice, stays: &[&ExplainedStay]) {
    let Some(first) = stays.first() else {
        return;
    };
    let unit = scene.explanation.unit();
    page.put("<tr><th scope='row'>");
    if stays.len() > 1 {
        push_numbers(
            page,
            &[("", stays.len() as u64)],
            " requests,<br/> the costliest ",
        );
    }
    push_link(page, scene, choice, first);
    page.put("</th><td>");
    scene.push_name(page, NameKind::Device, first.device);
    page.put("</td><td>");
    scene.push_name(page, NameKind::Driver, u32::from(first.driver));
    page.put("</td><td>");
    let (least, most) = Figure::Priority.ends(stays);
    push_range(page, least, most);
    for figure in &[Figure::Arrival, Figure::Sent, Figure::Best] {
        push_moments(page, unit, figure.ends(stays));
    }
    page.put("</td><td>");
    push_waited(page, unit, Figure::Waited.ends(stays));
    push_cost(page, stays);
    push_causes(page, scene, stays);
    page.put("</td></tr>\n");
}

// Puts the name of a stay on the page, with a link to its bar if that is drawn.
fn push_link(page: &mut Page, scene: &Scene, choice: &Choice, stay: &ExplainedStay) {
    if choice.has_bar(stay) {
        page.show(format_args!("<a href='#s{}-{}'>", stay.ccb, stay.attempt));
        push_stay_name(page, scene, stay);
        page.put("</a>");
    } else {
        page.put("<span>");
        push_stay_name(page, scene, stay);
        page.put("</span>");
    }
}

// Puts the cell of the least and the greatest of some rounds on the page.
fn push_moments(page: &mut Page, unit: Option<Span>, (least, most): (u32, u32)) {
    page.put("</td><td>");
    push_moment(page, unit, least);
    if least < most {
        page.put("<br/> to&#160;");
        push_moment(page, unit, most);
    }
}

// Puts the number of a round on the page, with the time at which it ended, on one line.
fn push_moment(page: &mut Page, unit: Option<Span>, round: u32) {
    push_number(page, u64::from(round));
    if let Some(span) = unit {
        page.put(" <span>(");
        push_end(page, span, u64::from(round));
        page.put(")</span>");
    }
}

// Puts the least and the greatest of some numbers on the page.
fn push_ends(page: &mut Page, (least, most): (u32, u32)) {
    push_number(page, u64::from(least));
    if least < most {
        push_numbers(page, &[(" to ", u64::from(most))], "");
    }
}

// Puts the least and the greatest number of rounds that some stays waited on the page, with their times.
fn push_waited(page: &mut Page, unit: Option<Span>, (least, most): (u32, u32)) {
    push_ends(page, (least, most));
    page.put(if most == 1 { " round" } else { " rounds" });
    let Some(span) = unit else {
        return;
    };
    page.put(if least < most {
        "<br/> <span>("
    } else {
        " <span>("
    });
    push_span(page, span, u64::from(least));
    if least < most {
        page.put(" to ");
        push_span(page, span, u64::from(most));
    }
    page.put(")</span>");
}

// Puts what some stays cost together on the page.
fn push_cost(page: &mut Page, stays: &[&ExplainedStay]) {
    let mut cost = 0u64;
    for stay in stays {
        cost = cost.saturating_add(stay.cost());
    }
    push_numbers(page, &[("</td><td>", cost)], "");
    page.put(if stays.len() > 1 {
        " together</td><td>"
    } else {
        "</td><td>"
    });
}

// Says how many rounds some stays waited for each cause, and which rounds these are together.
fn push_causes(page: &mut Page, scene: &Scene, stays: &[&ExplainedStay]) {
    for cause in &scene.explanation.kind().causes() {
        let ends = Figure::WaitedFor(*cause).ends(stays);
        if ends.1 > 0 {
            push_ends(page, ends);
            page.words(&[" ", cause.name(), ", "]);
        }
    }
    let (first, _) = Figure::Arrival.ends(stays);
    let (_, sent) = Figure::Sent.ends(stays);
    let last = sent.saturating_sub(1);
    page.put(if first == last { "round " } else { "rounds " });
    push_range(page, first, last);
}
