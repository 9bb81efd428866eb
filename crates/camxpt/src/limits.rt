//! Limits of latency: the words of `--slo`, and what comes of them.

use crate::failure::Failure;
use crate::import_words::span;
use crate::words::{count, number_in, word_at};
use capture::span_nanoseconds;
use clap::ArgMatches;
use recording_file::NameKind;
use std::alloc::{AllocError, Global};
use views::Limited;
use wait_causes::{Explanation, Grouping, LatencyLimit, StayChoice};

/// A limit as a word asks for it.
#[derive(Clone, Copy)]
pub struct Limit<'w> {
    word: &'w str,
    of: Requests<'w>,
    thousandths: u32,
    // In nanoseconds.
    most: u64,
}

// The requests that a limit is for.
#[derive(Clone, Copy)]
enum Requests<'w> {
    All,
    Driver(&'w str),
    Level(u32),
}

/// The limits that the words ask for.
pub fn limits_of<'w>(alloc: Global, words: &ArgMatches<'w>) -> Result<Vec<Limit<'w>>, Failure> {
    let mut limits = Vec::new(alloc);
    for place in 0..count(words, "slo") {
        let limit = limit_in(word_at(words, "slo", place)).ok_or(Failure::NoLimit(place))?;
        limits.push(limit).map_err(|_| AllocError)?;
    }
    Ok(limits)
}

// `driver:NAME`, `level:N` or `all`, and then `:pN=TIME`.
fn limit_in(word: &str) -> Option<Limit<'_>> {
    let (name, rest) = word.rsplit_once(':')?;
    let (rank, time) = rest.split_once('=')?;
    let of = match name.split_once(':') {
        Some(("driver", driver)) => Requests::Driver(driver),
        Some(("level", level)) => Requests::Level(number_in(level)?),
        None if name == "all" => Requests::All,
        _ => return None,
    };
    Some(Limit {
        word,
        of,
        thousandths: thousandths_in(rank.strip_prefix('p')?)?,
        most: span_nanoseconds(span(time)?),
    })
}

// A percentage from 0.1 to 100, with at most one digit after its point.
fn thousandths_in(word: &str) -> Option<u32> {
    let (whole, tenth) = word.split_once('.').unwrap_or((word, "0"));
    let (whole, tenth) = (number_in(whole)?, number_in(tenth)?);
    let thousandths = whole.saturating_mul(10).saturating_add(tenth);
    (tenth < 10 && 1 <= thousandths && thousandths <= 1000).then_some(thousandths)
}

/// How the limits were kept by what is explained.
pub fn limited<'w>(
    alloc: Global,
    limits: &[Limit<'w>],
    explanation: &Explanation,
) -> Result<Vec<Limited<'w>>, Failure> {
    let mut limited = Vec::new(alloc);
    for (place, limit) in limits.iter().enumerate() {
        let round = explanation.unit().ok_or(Failure::NoTimes)?;
        if !explanation.known().completions {
            return Err(Failure::NoCompletions);
        }
        let asked = LatencyLimit {
            of: choice(explanation, limit.of).ok_or(Failure::NoSuchDriver(place))?,
            thousandths: limit.thousandths.min(1000),
            most: limit.most,
            round: span_nanoseconds(round),
        };
        let counts = explanation.limit_counts(alloc, &asked)?;
        let word = limit.word;
        limited
            .push(Limited { word, counts })
            .map_err(|_| AllocError)?;
    }
    Ok(limited)
}

// The stays of these requests. None of a driver that isn't there.
fn choice(explanation: &Explanation, of: Requests<'_>) -> Option<StayChoice> {
    match of {
        Requests::All => Some(StayChoice::All),
        Requests::Level(number) => Some(StayChoice::Of(Grouping::Level, number)),
        Requests::Driver(driver) => {
            for name in explanation.names() {
                if name.kind() == NameKind::Driver && name.text() == driver {
                    return Some(StayChoice::Of(Grouping::Driver, name.number()));
                }
            }
            None
        }
    }
}
