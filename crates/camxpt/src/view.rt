//! How the explanation of a trace or a recording is shown: as a page, a line of JSON, a drawing or a timeline.

use crate::failure::Failure;
use crate::limits::{Limit, limited};
use crate::note::title;
use crate::output::closed;
use crate::words::number_in;
use clap::ArgMatches;
use drawing::{draw, timeline_json};
use recording_file::{Name, NameKind};
use round_net::Net;
use std::alloc::{AllocError, Global};
use views::{CaptureFacts, explain_json, page};
use wait_causes::Explanation;
use wording::{ByWeight, Page, push_span};

/// How an explanation is shown.
#[derive(Clone, Copy)]
pub enum View<'a> {
    /// As a page of text.
    Page {
        /// The limits of latency that are asked for.
        limits: &'a [Limit<'a>],
        /// How many of the costliest stays and freezes are listed at most.
        top: usize,
        /// Whether it has times in place of rounds, if it is known how long a round is.
        has_times: bool,
        /// Whether it has who waited for whom.
        has_blame: bool,
    },
    /// As one line of JSON.
    Json {
        /// The limits of latency that are asked for.
        limits: &'a [Limit<'a>],
        /// How many waits of each stay are listed at most; none if no stay is.
        waits: Option<usize>,
        /// Whether it has who waited for whom.
        has_blame: bool,
    },
    /// As a drawing.
    Drawing {
        /// The first and the last of the rounds whose bars are drawn, if they were asked for.
        rounds: Option<(u32, u32)>,
    },
    /// As a timeline for a viewer of trace events.
    Timeline {
        /// How many waits of each stay are listed at most.
        waits: usize,
    },
}

impl View<'_> {
    /// What is printed of the trace or recording of this name, beside the schedule of the order by weight, if all are sent in time by
    /// it, and what is known of how its capture was read. It is refused to draw rounds that there aren't.
    pub fn text(
        self,
        alloc: Global,
        name: &str,
        net: &Net,
        explanation: &Explanation,
        by_weight: Option<&ByWeight>,
        facts: Option<&CaptureFacts>,
    ) -> Result<String, Failure> {
        Ok(match self {
            View::Page {
                limits,
                top,
                has_times,
                has_blame,
            } => {
                let limited = limited(alloc, limits, explanation)?;
                page(
                    alloc,
                    net,
                    explanation,
                    &limited,
                    top,
                    has_times,
                    has_blame,
                    by_weight,
                    facts,
                )?
            }
            View::Json {
                limits,
                waits,
                has_blame,
            } => {
                let limited = limited(alloc, limits, explanation)?;
                closed(explain_json(
                    alloc,
                    name,
                    net,
                    explanation,
                    &limited,
                    waits,
                    has_blame,
                    facts,
                ))?
            }
            View::Drawing { rounds } => {
                if let Some((_, last)) = rounds
                    && last > net.rounds()
                {
                    return Err(Failure::NoSuchRounds(net.rounds()));
                }
                let title = drawn_title(alloc, name, net, explanation)?;
                draw(alloc, &title, rounds, net, explanation, by_weight)?
            }
            View::Timeline { waits } => {
                closed(timeline_json(alloc, title(name), net, explanation, waits))?
            }
        })
    }
}

// What is drawn: of a recording how long it is and of which devices, if it says how long a round is and has names of devices; else
// the input's name.
fn drawn_title(
    alloc: Global,
    name: &str,
    net: &Net,
    explanation: &Explanation,
) -> Result<String, AllocError> {
    let mut page = Page::new(alloc);
    let names = explanation.names();
    match explanation.unit() {
        Some(span) if names.iter().any(|name| name.kind() == NameKind::Device) => {
            push_span(&mut page, span, u64::from(net.rounds()));
            page.put(" of ");
            push_devices(&mut page, names);
        }
        _ => page.put(title(name)),
    }
    page.finish()
}

// Puts the names of the first three devices on the page, and how many more have one.
fn push_devices(page: &mut Page, names: &[Name]) {
    let mut count = 0usize;
    for name in names {
        if name.kind() == NameKind::Device {
            if count < 3 {
                page.put(if count > 0 { ", " } else { "" });
                page.put(name.text());
            }
            count = count.saturating_add(1);
        }
    }
    if count > 3 {
        page.show(format_args!(" and {} more", count - 3));
    }
}

/// The rounds that the words ask for, if they ask for some.
pub fn range_of(words: &ArgMatches<'_>) -> Result<Option<(u32, u32)>, Failure> {
    match words.get_str("rounds") {
        None => Ok(None),
        Some(word) => match two_rounds(word) {
            Some(rounds) => Ok(Some(rounds)),
            None => Err(Failure::NoRange),
        },
    }
}

// Two numbers with a hyphen between them, from 1 on and not falling.
fn two_rounds(word: &str) -> Option<(u32, u32)> {
    let (first, last) = word.split_once('-')?;
    let (first, last) = (number_in(first)?, number_in(last)?);
    (1 <= first && first <= last).then_some((first, last))
}
