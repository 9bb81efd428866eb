//! Which ranges are drawn.

use crate::round_figures::{RoundFigures, count_of};
use crate::round_range::{MAX_BARS, RoundRange, by_cost, cut};
use crate::scene::Scene;
use std::alloc::{AllocError, Global};
use wait_causes::ExplainedStay;
use wording::{items_at, places_by};

// The least number of rounds of a range, and the number where not all ranges are drawn.
const LENGTH: u32 = 64;

// The most ranges where all are drawn, and the most bars that they have together: a stay has one in each of its ranges.
const MAX_RANGES: u32 = 16;

const MAX_PIECES: u64 = 8_192;

// The most ranges where only the costliest are drawn.
const MAX_COSTLIEST: usize = 8;

/// Which ranges are drawn.
#[derive(Clone, Copy)]
pub(crate) enum Shown {
    /// All.
    All,
    /// Those in which waiting cost most.
    Costliest,
    /// The one that was asked for.
    Asked,
}

/// The ranges that are drawn.
#[derive(Drop)]
pub(crate) struct Choice {
    /// Which they are.
    pub(crate) shown: Shown,
    /// How many rounds each has, but for the last one.
    pub(crate) length: u32,
    /// They themselves, in order of time.
    pub(crate) ranges: Vec<RoundRange>,
}

impl Choice {
    /// Those to be drawn: the one that is asked for, all if there are few stays, or the costliest.
    pub(crate) fn of(
        scene: &Scene,
        figures: &[RoundFigures],
        asked: Option<(u32, u32)>,
    ) -> Result<Choice, AllocError> {
        match asked {
            Some((first, last)) => Choice::asked(scene.alloc, figures, first, last),
            None if scene.has_all => Choice::all(scene.alloc, figures),
            None => Choice::costliest(scene.alloc, figures),
        }
    }

    // These rounds.
    fn asked(
        alloc: Global,
        figures: &[RoundFigures],
        first: u32,
        last: u32,
    ) -> Result<Choice, AllocError> {
        let before = (first as usize).saturating_sub(1);
        let end = (last as usize).min(figures.len());
        let range = RoundRange::of(first, figures.get(before..end).unwrap_or(&[]));
        Ok(Choice {
            shown: Shown::Asked,
            length: range.rounds(),
            ranges: vec![in alloc; range; 1]?,
        })
    }

    // All ranges, as long as they have to be so that few stays have a part in several.
    fn all(alloc: Global, figures: &[RoundFigures]) -> Result<Choice, AllocError> {
        let mut length = LENGTH.max(count_of(figures) / MAX_RANGES + 1);
        let mut ranges = cut(alloc, figures, length)?;
        for _ in 0..16 {
            if pieces(&ranges) > MAX_PIECES {
                length = length.saturating_mul(2);
                ranges = cut(alloc, figures, length)?;
            }
        }
        Ok(Choice {
            shown: Shown::All,
            length,
            ranges,
        })
    }

    // The costliest ranges, as many as the page has bars for.
    fn costliest(alloc: Global, figures: &[RoundFigures]) -> Result<Choice, AllocError> {
        let ranges = by_cost(alloc, &cut(alloc, figures, LENGTH)?)?;
        let mut kept = Vec::with_capacity(alloc, MAX_COSTLIEST)?;
        let mut bars = 0u64;
        for range in ranges.iter().take(MAX_COSTLIEST) {
            let more = bars.saturating_add(range.stays);
            if kept.is_empty() || more <= MAX_BARS as u64 {
                bars = more;
                kept.push(*range)?;
            }
        }
        let mut firsts = Vec::with_capacity(alloc, kept.len())?;
        for range in &kept {
            firsts.push(u64::from(range.first))?;
        }
        Ok(Choice {
            shown: Shown::Costliest,
            length: LENGTH,
            ranges: items_at(alloc, &kept, &places_by(alloc, &firsts)?)?,
        })
    }

    /// What the waiting in these ranges cost.
    pub(crate) fn cost(&self) -> u64 {
        let mut cost = 0u64;
        for range in &self.ranges {
            cost = cost.saturating_add(range.cost);
        }
        cost
    }

    /// Whether the stay has its whole bar, with its send.
    pub(crate) fn has_bar(&self, stay: &ExplainedStay) -> bool {
        for range in &self.ranges {
            if range.has(stay.live) {
                return !range.is_crowded();
            }
        }
        false
    }
}

// How many bars these ranges have together.
fn pieces(ranges: &[RoundRange]) -> u64 {
    let mut pieces = 0u64;
    for range in ranges {
        pieces = pieces.saturating_add(range.stays);
    }
    pieces
}
