//! The rounds and times below a drawing.

use crate::scene::Scene;
use wording::{Page, push_end, push_number};

/// Puts the axis of these rounds on the page: up to four of them, each where it begins, and below it when it ends.
pub(crate) fn push_axis(page: &mut Page, scene: &Scene, first: u32, last: u32) {
    let height = if scene.explanation.unit().is_some() {
        32
    } else {
        18
    };
    page.show(format_args!(
        "<svg xmlns='http://www.w3.org/2000/svg' class='axis' aria-hidden='true' height='{height}'>"
    ));
    let rounds = last.saturating_sub(first).saturating_add(1);
    for quarter in 0..4u32 {
        let before = rounds.saturating_mul(quarter) / 4;
        if quarter == 0 || before >= quarter.saturating_mul(2) {
            push_tick(page, scene, quarter, first.saturating_add(before));
        }
    }
    page.put("</svg>\n");
}

// Puts a tick at that many quarters of the width on the page.
fn push_tick(page: &mut Page, scene: &Scene, quarter: u32, round: u32) {
    let at = quarter.saturating_mul(25);
    page.show(format_args!("<text y='14' x='{at}%'>"));
    push_number(page, u64::from(round));
    page.put("</text>");
    if let Some(span) = scene.explanation.unit() {
        page.show(format_args!("<text y='28' x='{at}%'>"));
        push_end(page, span, u64::from(round));
        page.put("</text>");
    }
}
