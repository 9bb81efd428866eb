//! The overview: how many waited, and how many openings were used or how many were in flight, over time, with the ranges that
//! are drawn.

use crate::axis::push_axis;
use crate::choice::Choice;
use crate::columns::{ColumnValue, Scale, bin_rounds, push_columns, push_line};
use crate::round_figures::{RoundFigures, count_of};
use crate::round_range::{RoundRange, by_cost};
use crate::scene::Scene;
use crate::section::push_range_name;
use std::alloc::AllocError;
use wording::{Page, push_number, push_numbers, push_round, push_share};

// What the mark of an area begins with, before its class, and what it ends with.
const SWATCH: &str =
    "<li><svg xmlns='http://www.w3.org/2000/svg' aria-hidden='true' width='32' height='14'><path d='M0 0h32v14h-32z' class='";

const SWATCH_END: &str = "'/></svg> ";

// How many ranges are listed.
const LISTED: usize = 8;

/// Puts the overview on the page.
pub(crate) fn push_overview(
    page: &mut Page,
    scene: &Scene,
    choice: &Choice,
    figures: &[RoundFigures],
) -> Result<(), AllocError> {
    page.put("<section id='overview'><h2>Overview</h2>\n");
    push_parts(page, scene);
    push_chart(page, scene, choice, figures);
    push_axis(page, scene, 1, count_of(figures));
    push_caption(page, scene, figures);
    if choice.ranges.len() > 1 {
        push_list(page, scene, choice)?;
    }
    page.put("</section>\n");
    Ok(())
}

// What stands above: of a recording the weight that waited, with that in the best schedule at the recorded pace and in the best
// schedule before it, or of a trace how many waited.
fn areas(scene: &Scene) -> &'static [(ColumnValue, &'static str)] {
    match scene.whole.pace {
        Some(_) => &[
            (ColumnValue::Cost, "order"),
            (ColumnValue::Paced, "idle"),
            (ColumnValue::Needed, "needed"),
        ],
        None => &[(ColumnValue::Waiting, "q")],
    }
}

// What stands below, in words and as a number: of a recording that says completions the requests in flight, or else the
// openings used.
fn below(scene: &Scene) -> (&'static str, ColumnValue) {
    if scene.explanation.known().completions {
        ("requests in flight", ColumnValue::InFlight)
    } else {
        ("openings used", ColumnValue::Sent)
    }
}

// Says what the areas of a recording stand for, and what share of the cost each has.
fn push_parts(page: &mut Page, scene: &Scene) {
    let whole = &scene.whole;
    let Some(pace) = whole.pace else {
        return;
    };
    page.put("<ul class='legend' id='cost-parts'>\n");
    push_part(
        page,
        scene,
        ["order", "by order"],
        whole.live.saturating_sub(pace),
    );
    push_part(
        page,
        scene,
        ["idle", "by idle slots"],
        pace.saturating_sub(whole.best),
    );
    push_part(page, scene, ["needed", "needed"], whole.best);
    page.words(&[
        SWATCH,
        "used",
        SWATCH_END,
        "below: ",
        below(scene).0,
        "</li>\n</ul>\n",
    ]);
}

// Says what an area of this class stands for in words, and what share of the cost it has.
fn push_part(page: &mut Page, scene: &Scene, [class, words]: [&str; 2], cost: u64) {
    page.words(&[SWATCH, class, SWATCH_END, words]);
    push_numbers(page, &[(" <b>", cost)], "</b> (");
    push_share(page, cost, scene.whole.live);
    page.put(")</li>\n");
}

// Puts the drawing on the page: two rows of columns, one above the other.
fn push_chart(page: &mut Page, scene: &Scene, choice: &Choice, figures: &[RoundFigures]) {
    let (words, used) = below(scene);
    page.show(format_args!(
        "<svg xmlns='http://www.w3.org/2000/svg' class='chart' role='group' aria-labelledby='o1 o2' \
preserveAspectRatio='none' height='160' viewBox='0 0 {} 160'>\
<title id='o1'>Requests waiting, and {words}, over time</title>\
<desc id='o2'>The stretches that are drawn below are links.</desc>\n",
        figures.len()
    ));
    push_waiting(page, figures, areas(scene));
    push_used(page, figures, used);
    for range in &choice.ranges {
        if range.stays > 0 {
            push_pick(page, scene, range);
        }
    }
    page.put("</svg>\n");
}

// Puts the columns above on the page, each area before the next.
fn push_waiting(page: &mut Page, figures: &[RoundFigures], areas: &[(ColumnValue, &str)]) {
    let mut most = 0;
    for (value, _) in areas {
        most = value.most(figures).max(most);
    }
    let scale = Scale {
        most,
        height: 96,
        base: 100,
    };
    for (value, class) in areas {
        page.words(&["<path class='", class, "' d='"]);
        push_columns(page, figures, *value, scale);
        page.put("'/>\n");
    }
}

// Puts the columns below on the page, with the line to which they may reach: the openings, or the most that were in flight.
fn push_used(page: &mut Page, figures: &[RoundFigures], used: ColumnValue) {
    let most = used.most(figures);
    let scale = Scale {
        most: match used {
            ColumnValue::Sent => most.max(ColumnValue::Openings.most(figures)),
            _ => most,
        },
        height: 48,
        base: 156,
    };
    page.put("<path class='used' d='");
    push_columns(page, figures, used, scale);
    page.put("'/>\n<path class='cap' d='");
    match used {
        ColumnValue::Sent => push_line(page, figures, ColumnValue::Openings, scale),
        _ if most > 0 => page.show(format_args!("M0 108h{}", figures.len())),
        _ => {}
    }
    page.put("'/>\n");
}

// Puts the link to a range on the page.
fn push_pick(page: &mut Page, scene: &Scene, range: &RoundRange) {
    page.show(format_args!(
        "<a href='#r{}'><rect x='{}' width='{}' height='160'><title>",
        range.first,
        range.first.saturating_sub(1),
        range.rounds()
    ));
    push_range_name(page, scene, range);
    push_numbers(page, &[(": cost ", range.cost)], "</title></rect></a>\n");
}

// Says what the drawing shows.
fn push_caption(page: &mut Page, scene: &Scene, figures: &[RoundFigures]) {
    let above = match scene.whole.pace {
        Some(_) => ("the weight of the requests that waited", ColumnValue::Cost),
        None => ("requests that waited", ColumnValue::Waiting),
    };
    page.words(&["<p>Above: ", above.0, ", at most "]);
    push_most(page, scene, figures, above.1);
    let (words, used) = below(scene);
    page.words(&[". Below: ", words, ", at most "]);
    push_most(page, scene, figures, used);
    match used {
        ColumnValue::Sent => push_numbers(
            page,
            &[(
                "; the line is how many the adapters have, at most ",
                ColumnValue::Openings.most(figures),
            )],
            "",
        ),
        _ => page.put(
            ", where the line is. In flight in a round are those sent in it or before, and completed in it or later",
        ),
    }
    let each = bin_rounds(figures) as u64;
    if each > 1 {
        push_numbers(
            page,
            &[(". A column is ", each)],
            " rounds and shows the greatest of them",
        );
    }
    page.put(".</p>\n");
}

// Puts the greatest of these numbers on the page, and in which round it was first reached, unless it is 0.
fn push_most(page: &mut Page, scene: &Scene, figures: &[RoundFigures], shown: ColumnValue) {
    let most = shown.most(figures);
    push_number(page, most);
    let mut round = 1u32;
    for figure in figures {
        if most > 0 && shown.of(figure) == most {
            page.put(" in round ");
            push_round(page, scene.explanation.unit(), round);
            return;
        }
        round = round.saturating_add(1);
    }
}

// Puts the links to the costliest of the ranges on the page, each with what it cost.
fn push_list(page: &mut Page, scene: &Scene, choice: &Choice) -> Result<(), AllocError> {
    page.put("<p>The costliest stretches, each a link:</p>\n<ol id='stretches'>\n");
    for range in by_cost(scene.alloc, &choice.ranges)?.iter().take(LISTED) {
        if range.stays > 0 {
            push_stretch(page, scene, range);
        }
    }
    page.put("</ol>\n");
    Ok(())
}

// Puts the link to a range on the page, with what it cost.
fn push_stretch(page: &mut Page, scene: &Scene, range: &RoundRange) {
    page.show(format_args!("<li><a href='#r{}'>", range.first));
    push_range_name(page, scene, range);
    push_numbers(page, &[("</a>: cost ", range.cost)], ", ");
    push_share(page, range.cost, scene.whole.live);
    page.put("</li>\n");
}
