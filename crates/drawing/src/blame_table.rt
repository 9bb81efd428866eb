//! The table of who was in the way of whom.

use crate::scene::Scene;
use recording_file::{NameKind, Span};
use std::alloc::AllocError;
use wait_causes::{BlameRow, Grouping, blame_of};
use wording::{Page, push_number, push_rounds};

// How many rows are listed.
const LISTED: usize = 10;

const HEAD: &str =
    "<table class='narrow' id='blame'><caption>Who was in the way, by drivers; avoidable by order is what was waited after the best \
order had sent the request</caption><thead><tr><th scope='col'>waited</th><th scope='col'>for</th><th scope='col'>how long</th>\
<th scope='col'>avoidable</th><th scope='col'>cost</th></tr></thead><tbody>\n";

/// Puts the pairs of drivers that cost most on the page, if somebody waited.
pub(crate) fn push_blame(page: &mut Page, scene: &Scene) -> Result<(), AllocError> {
    let rows = blame_of(scene.alloc, scene.explanation, Grouping::Driver)?;
    if rows.is_empty() {
        return Ok(());
    }
    page.put(HEAD);
    for row in rows.iter().take(LISTED) {
        push_row(page, scene, row);
    }
    page.put("</tbody></table>\n");
    Ok(())
}

fn push_row(page: &mut Page, scene: &Scene, row: &BlameRow) {
    let unit: Option<Span> = scene.explanation.unit();
    page.put("<tr><th scope='row'>");
    scene.push_name(page, NameKind::Driver, row.waiting);
    page.put("</th><td>");
    match row.by {
        Some(by) => scene.push_name(page, NameKind::Driver, by),
        None => page.put("nobody"),
    }
    page.put("</td><td>");
    push_rounds(page, unit, row.waited);
    page.put("</td><td>");
    push_rounds(page, unit, row.avoidable);
    page.put("</td><td>");
    push_number(page, row.cost);
    page.put("</td></tr>\n");
}
