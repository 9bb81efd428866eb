//! The page.

use crate::choice::Choice;
use crate::costliest::push_costliest;
use crate::glossary::push_words;
use crate::overview::push_overview;
use crate::round_figures::{RoundFigures, figures};
use crate::round_range::MAX_BARS;
use crate::scene::Scene;
use crate::section::push_ranges;
use crate::style::{HEAD, STYLE};
use crate::summary::push_summary;
use crate::tables::{push_freezes, push_level_waits, push_tables};
use round_net::Net;
use std::alloc::{AllocError, Global};
use wait_causes::Explanation;
use wording::{ByWeight, Page};

/// The page on the explanation of a history or a recording beside its net, which any browser opens: sentences on what the
/// waiting cost, what cost most, an overview of all rounds, bars of stays with the causes of their waiting, tables, and what
/// the words mean. All costs are weighted rounds. Beside what was recorded and the best schedule stands that of the order by weight,
/// if all are sent in time by it. Any text may be the title. There is a bar for each stay if there are at most
/// 4,096, or for those in the rounds that are asked for, by the first and the last of them, at most 4,096; otherwise for those in the costliest ranges of rounds. Its text is well-formed
/// XML; of names, characters that XML doesn't allow are left out.
pub fn draw(
    alloc: Global,
    title: &str,
    rounds: Option<(u32, u32)>,
    net: &Net,
    explanation: &Explanation,
    by_weight: Option<&ByWeight>,
) -> Result<String, AllocError> {
    let stays = explanation.stays();
    let has_all = rounds.is_none() && stays.len() <= MAX_BARS;
    let scene = Scene::of(alloc, net, explanation, has_all)?;
    let figures = figures(alloc, net, stays)?;
    let choice = Choice::of(&scene, &figures, rounds)?;
    page_of(title, &scene, &figures, &choice, by_weight)
}

// The page with these figures and ranges.
fn page_of(
    title: &str,
    scene: &Scene,
    figures: &[RoundFigures],
    choice: &Choice,
    by_weight: Option<&ByWeight>,
) -> Result<String, AllocError> {
    let mut page = Page::new(scene.alloc);
    push_head(&mut page, scene, title);
    push_summary(&mut page, scene, by_weight);
    push_drawings(&mut page, scene, choice, figures)?;
    push_lists(&mut page, scene, by_weight)?;
    page.put("</main></body></html>\n");
    page.finish()
}

// Puts what cost most, the overview and the bars on the page.
fn push_drawings(
    page: &mut Page,
    scene: &Scene,
    choice: &Choice,
    figures: &[RoundFigures],
) -> Result<(), AllocError> {
    push_costliest(page, scene, choice)?;
    push_overview(page, scene, choice, figures)?;
    push_ranges(page, scene, choice)
}

// Puts the tables and what the words mean on the page.
fn push_lists(
    page: &mut Page,
    scene: &Scene,
    by_weight: Option<&ByWeight>,
) -> Result<(), AllocError> {
    push_tables(page, scene)?;
    push_level_waits(page, scene, by_weight)?;
    push_freezes(page, scene)?;
    push_words(page, scene);
    Ok(())
}

// Puts what stands before the summary on the page.
fn push_head(page: &mut Page, scene: &Scene, title: &str) {
    page.put(HEAD);
    page.escaped(title);
    page.words(&["</title><style>\n", STYLE]);
    push_captions(page, scene);
    page.put("</style></head><body><main><h1>");
    page.escaped(title);
    page.put("</h1>\n");
}

// Puts the captions that the cells of the tables of causes have on a narrow page into the style sheet.
fn push_captions(page: &mut Page, scene: &Scene) {
    page.put("@media(max-width:1059px){");
    let mut column = 2u32;
    for cause in &scene.explanation.kind().causes() {
        if cause.can_hold(scene.net.config()) {
            push_caption(page, column, cause.name());
            column = column.saturating_add(1);
        }
    }
    for word in &["behind less urgent", "behind equal", "behind more urgent"] {
        push_caption(page, column, word);
        column = column.saturating_add(1);
    }
    page.put("}\n");
}

// Puts the caption of a column into the style sheet.
fn push_caption(page: &mut Page, column: u32, word: &str) {
    page.show(format_args!(".costs td:nth-child({column})::before{{content:'{word}'}}"));
}
