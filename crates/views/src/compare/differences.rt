//! Sentences on that in which two inputs differ beside what waited.

use crate::pair::Pair;
use crate::tables::GROUPINGS;
use recording_file::Span;
use std::alloc::{AllocError, Global};
use wording::{Page, push_span};

/// Puts a sentence on the page for each thing in which the inputs differ, those first by which costs don't compare, and on rows
/// that aren't paired by names as they were to be.
pub(crate) fn push_differences(
    alloc: Global,
    page: &mut Page,
    pair: &Pair<'_>,
) -> Result<(), AllocError> {
    let mut sentences = Page::new(alloc);
    push_inputs(&mut sentences, pair);
    push_pairings(&mut sentences, pair);
    let text = sentences.finish()?;
    if !text.is_empty() {
        page.put(&text);
        page.put("\n");
    }
    Ok(())
}

// Puts a sentence on each difference of the inputs on the page.
fn push_inputs(page: &mut Page, pair: &Pair<'_>) {
    let (before, after) = (pair.before, pair.after);
    let differences = pair.differences();
    if differences.weights {
        page.put("\nThe weights differ, so costs don't compare.");
    }
    if differences.round {
        push_rounds(page, before.explanation.unit(), after.explanation.unit());
    }
    let (stays, stays_after) = (before.net.stays(), after.net.stays());
    if stays != stays_after {
        page.show(format_args!(
            "\nThere are {stays} stays before and {stays_after} after, so costs are those of different loads."
        ));
    }
    if differences.devices {
        page.put("\nThe devices or their openings differ.");
    }
    if differences.adapters {
        page.put("\nThe adapters or their openings differ.");
    }
    if differences.links {
        page.put("\nThe links or their openings differ.");
    }
    if before.explanation.kind() != after.explanation.kind() {
        page.put(
            "\nOne is a trace and the other a recording: each has causes that the other one doesn't tell.",
        );
    }
}

// Puts a sentence on rounds of different lengths on the page.
fn push_rounds(page: &mut Page, before: Option<Span>, after: Option<Span>) {
    match (before, after) {
        (Some(before), Some(after)) => {
            page.put("\nA round is ");
            push_span(page, before, 1);
            page.put(" before and ");
            push_span(page, after, 1);
            page.put(" after, so rounds and costs don't compare.");
        }
        _ => page.put(
            "\nHow long a round is is known of one of them alone, so rounds may not compare.",
        ),
    }
}

// Puts a sentence on each table on the page whose rows are paired by number since one input has no names, or of which an input
// has a name twice.
fn push_pairings(page: &mut Page, pair: &Pair<'_>) {
    for (by, words, _) in &GROUPINGS {
        let pairing = pair.pairing(*by);
        if let Some(input) = pairing.unnamed {
            page.show(format_args!(
                "\nThe input {input} has no names of {words}, so {words} are paired by their numbers."
            ));
        } else if pairing.namesakes {
            page.show(format_args!(
                "\nSome {words} have one name, so these are paired in the order of their numbers."
            ));
        }
    }
}
