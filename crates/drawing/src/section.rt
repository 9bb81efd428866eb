//! The drawing of a range.

use crate::axis::push_axis;
use crate::choice::{Choice, Shown};
use crate::device_row::push_rows;
use crate::legend::push_legends;
use crate::round_range::{MAX_BARS, RoundRange};
use crate::scene::Scene;
use crate::shades::cell_rounds;
use std::alloc::AllocError;
use wording::{Page, push_end, push_numbers, push_share};

/// Puts the drawings of the ranges on the page, below how they are coloured.
pub(crate) fn push_ranges(
    page: &mut Page,
    scene: &Scene,
    choice: &Choice,
) -> Result<(), AllocError> {
    page.put("<section id='bars'><h2>Bars</h2>\n");
    push_choice(page, scene, choice);
    push_legends(page, scene)?;
    for range in &choice.ranges {
        if range.stays > 0 {
            push_round_range(page, scene, *range)?;
        }
    }
    page.put("</section>\n");
    Ok(())
}

// Says which ranges are drawn.
fn push_choice(page: &mut Page, scene: &Scene, choice: &Choice) {
    page.put("<p id='shown'>");
    match choice.shown {
        Shown::All => page.put("A bar for each request"),
        Shown::Asked => page.put("A bar for each request in the rounds that were asked for"),
        Shown::Costliest => push_numbers(
            page,
            &[
                (
                    "A bar for each request in the costliest ",
                    choice.ranges.len() as u64,
                ),
                (" of all stretches of ", u64::from(choice.length)),
            ],
            " rounds",
        ),
    }
    if choice.shown != Shown::All {
        page.put(": ");
        push_share(page, choice.cost(), scene.whole.live);
        page.put(
            " of what the waiting cost. <code>camxpt draw --rounds A-B</code> draws the rounds from A to B",
        );
    }
    if choice.shown == Shown::All && choice.ranges.len() > 1 {
        push_numbers(
            page,
            &[(", in stretches of ", u64::from(choice.length))],
            " rounds. If a request is in several, the one in which it was sent tells all of it",
        );
    }
    page.put(". A bar begins where the request came and ends where it was sent.</p>\n");
}

// Puts the drawing of a range on the page.
fn push_round_range(page: &mut Page, scene: &Scene, range: RoundRange) -> Result<(), AllocError> {
    page.show(format_args!("<section class='stretch' id='r{}'><h3>", range.first));
    push_range_name(page, scene, &range);
    page.put("</h3><p>");
    push_range_costs(page, scene, &range);
    page.put("</p>\n<div class='row'><p class='label'>round</p>");
    push_axis(page, scene, range.first, range.last);
    page.put("</div>\n");
    push_rows(page, scene, range)?;
    page.put("<p class='back'><a href='#overview'>Overview</a></p></section>\n");
    Ok(())
}

/// Puts the rounds and times of a range on the page.
pub(crate) fn push_range_name(page: &mut Page, scene: &Scene, range: &RoundRange) {
    push_numbers(
        page,
        &[
            ("Rounds ", u64::from(range.first)),
            (" to ", u64::from(range.last)),
        ],
        "",
    );
    if let Some(span) = scene.explanation.unit() {
        page.put(" (");
        push_end(page, span, u64::from(range.first.saturating_sub(1)));
        page.put(" to ");
        push_end(page, span, u64::from(range.last));
        page.put(")");
    }
}

// Says what the waiting in a range cost, and which bars are drawn.
fn push_range_costs(page: &mut Page, scene: &Scene, range: &RoundRange) {
    push_numbers(page, &[("Waiting cost ", range.cost)], " here, ");
    push_share(page, range.cost, scene.whole.live);
    push_numbers(page, &[(" of all. ", range.stays)], "");
    page.put(if range.stays == 1 {
        " request waited or was sent."
    } else {
        " requests waited or were sent."
    });
    if range.is_crowded() {
        push_numbers(
            page,
            &[(" The ", MAX_BARS as u64)],
            " whose waiting cost most here have a bar.",
        );
    }
    let each = cell_rounds(range);
    if each > 1 {
        push_numbers(
            page,
            &[(" A step of the shades and strips is ", u64::from(each))],
            " rounds: the fullest of them, and the cause of the first one in which a request waited.",
        );
    }
}
