//! How bars are coloured: by cause, by driver or by class.

use crate::scene::{COLOURS, Scene};
use crate::words::class_of;
use recording_file::NameKind;
use std::alloc::AllocError;
use wait_causes::Grouping;
use wording::{Page, push_numbers, push_share};

// By what bars may be coloured.
const CHOICES: &str = "<fieldset id='colours'><legend>Colour the bars by</legend>\
<label><input type='radio' name='by' id='by-cause' checked='checked'/> cause</label>\
<label><input type='radio' name='by' id='by-driver'/> driver</label>\
<label><input type='radio' name='by' id='by-class'/> class</label></fieldset>\n";

// What a swatch begins with, before its class, and what it ends with.
const SWATCH: &str =
    "<li><svg xmlns='http://www.w3.org/2000/svg' aria-hidden='true' width='32' height='14' viewBox='0 0 2 14' preserveAspectRatio='none'><path d='M0 7h2' class='";

const SWATCH_END: &str = "' stroke-width='12'/></svg> ";

// The text on the marks.
const MARKS: &str = "<ul class='legend'>\
<li><svg xmlns='http://www.w3.org/2000/svg' aria-hidden='true' width='32' height='14'><path class='t' stroke-width='11' d='M10 7h12'/></svg> the round of the send</li>\
<li><svg xmlns='http://www.w3.org/2000/svg' aria-hidden='true' width='32' height='14'><path class='o' d='M16 7h0'/><path class='i' d='M16 7h0'/></svg> where the best schedule sends it</li>\
<li><svg xmlns='http://www.w3.org/2000/svg' aria-hidden='true' width='32' height='14'><path class='used' d='M0 13v-2h8v-2h8v-4h8v-4h8v12z'/></svg> below the bars: openings used, by quarters</li>\
<li><svg xmlns='http://www.w3.org/2000/svg' aria-hidden='true' width='32' height='14'><path class='shut' d='M0 8h32'/></svg> takes nothing</li></ul>\n";

/// Puts the choice of colours on the page, and what each colour and mark says.
pub(crate) fn push_legends(page: &mut Page, scene: &Scene) -> Result<(), AllocError> {
    page.put(CHOICES);
    push_causes(page, scene);
    push_drivers(page, scene);
    push_classes(page, scene)?;
    page.put(MARKS);
    Ok(())
}

// Puts the causes on the page, with what each cost.
fn push_causes(page: &mut Page, scene: &Scene) {
    page.put("<ul class='legend by-cause' id='causes'>\n");
    for (cause, cost) in &scene.whole.costs.by_cause(scene.explanation.kind()) {
        if cause.can_hold(scene.net.config()) {
            page.words(&[SWATCH, class_of(*cause), SWATCH_END, cause.name()]);
            push_cost(page, scene, *cost);
        }
    }
    page.put("</ul>\n");
}

// Puts the costliest drivers on the page, and all others together.
fn push_drivers(page: &mut Page, scene: &Scene) {
    let mut others = scene.whole.live;
    page.put("<ul class='legend by-driver'>\n");
    for (rank, row) in scene.drivers.iter().take(COLOURS).enumerate() {
        push_swatch(page, "w v", rank as u64);
        scene.push_name(page, NameKind::Driver, row.number);
        push_cost(page, scene, row.part.live);
        others = others.saturating_sub(row.part.live);
    }
    if scene.drivers.len() > COLOURS {
        push_swatch(page, "w v", COLOURS as u64);
        page.put("all other drivers");
        push_cost(page, scene, others);
    }
    page.put("</ul>\n");
}

// Puts the classes on the page.
fn push_classes(page: &mut Page, scene: &Scene) -> Result<(), AllocError> {
    page.put("<ul class='legend by-class'>\n");
    for row in &scene.explanation.table(scene.alloc, Grouping::Level)? {
        push_swatch(page, "w l", u64::from(row.number));
        page.parts(&[("class ", u64::from(row.number))], "");
        push_cost(page, scene, row.part.live);
    }
    page.put("</ul>\n");
    Ok(())
}

// Puts the swatch of the driver or class of this number on the page.
fn push_swatch(page: &mut Page, class: &str, number: u64) {
    page.words(&[SWATCH, class]);
    page.show(number);
    page.put(SWATCH_END);
}

// Puts a cost with its share on the page, and the end of its item.
fn push_cost(page: &mut Page, scene: &Scene, cost: u64) {
    push_numbers(page, &[(" <b>", cost)], "</b> (");
    push_share(page, cost, scene.whole.live);
    page.put(")</li>\n");
}
