//! Ranges of rounds whose bars are drawn together.

use crate::round_figures::{RoundFigures, count_of};
use std::alloc::{AllocError, Global};
use wait_causes::ExplainedStay;
use wording::{items_at, places_from_greatest};

/// The most bars of a page that doesn't have all, and of a range.
pub(crate) const MAX_BARS: usize = 4_096;

/// A range of rounds.
#[derive(Clone, Copy)]
pub(crate) struct RoundRange {
    /// The first of the rounds, from 1.
    pub(crate) first: u32,
    /// The last of the rounds.
    pub(crate) last: u32,
    /// What the waiting in these rounds cost.
    pub(crate) cost: u64,
    /// How many stays waited or were sent in them.
    pub(crate) stays: u64,
}

impl RoundRange {
    /// The rounds that have these figures, from this one on. All stays of the range were sent in it, but those that still
    /// waited in its last round.
    pub(crate) fn of(first: u32, figures: &[RoundFigures]) -> RoundRange {
        let mut range = RoundRange {
            first,
            last: first.saturating_add(count_of(figures)).saturating_sub(1),
            cost: 0,
            stays: 0,
        };
        if let Some(last) = figures.last() {
            range.stays = last.waiting;
        }
        for figure in figures {
            range.cost = range.cost.saturating_add(figure.cost);
            range.stays = range.stays.saturating_add(figure.sent);
        }
        range
    }

    /// How many rounds these are.
    pub(crate) fn rounds(&self) -> u32 {
        self.last.saturating_sub(self.first).saturating_add(1)
    }

    /// Whether the round is one of these.
    pub(crate) fn has(&self, round: u32) -> bool {
        self.first <= round && round <= self.last
    }

    /// How many rounds there are before this one, from the range's first on.
    pub(crate) fn offset(&self, round: u32) -> u32 {
        round.saturating_sub(self.first)
    }

    /// Whether there are more stays than are drawn of a range.
    pub(crate) fn is_crowded(&self) -> bool {
        self.stays > MAX_BARS as u64
    }

    // What the waiting of the stay at this place cost in these rounds.
    fn cost_of(&self, stays: &[ExplainedStay], place: usize) -> u64 {
        let Some(stay) = stays.get(place) else {
            return 0;
        };
        let end = stay.live.min(self.last.saturating_add(1));
        let rounds = end.saturating_sub(stay.arrival.max(self.first));
        u64::from(stay.weight).saturating_mul(u64::from(rounds))
    }

    /// The places of the stays that are drawn, in creation order: all that waited or were sent in these rounds, or the
    /// costliest in them.
    pub(crate) fn places(
        &self,
        alloc: Global,
        stays: &[ExplainedStay],
    ) -> Result<Vec<usize>, AllocError> {
        let mut places = Vec::new(alloc);
        for (place, stay) in stays.iter().enumerate() {
            if stay.arrival <= self.last && self.first <= stay.live {
                places.push(place)?;
            }
        }
        if places.len() <= MAX_BARS {
            return Ok(places);
        }
        self.costliest(alloc, stays, &places)
    }

    // The costliest of these places, in the order given, as many as are drawn of a range.
    fn costliest(
        &self,
        alloc: Global,
        stays: &[ExplainedStay],
        places: &[usize],
    ) -> Result<Vec<usize>, AllocError> {
        let mut costs = Vec::with_capacity(alloc, places.len())?;
        for place in places {
            costs.push(self.cost_of(stays, *place))?;
        }
        let mut is_drawn = vec![in alloc; false; places.len()]?;
        for at in places_from_greatest(alloc, &costs)?.iter().take(MAX_BARS) {
            if let Some(is_drawn) = is_drawn.get_mut(*at) {
                *is_drawn = true;
            }
        }
        let mut drawn = Vec::with_capacity(alloc, MAX_BARS)?;
        for (place, is_drawn) in places.iter().zip(&is_drawn) {
            if *is_drawn {
                drawn.push(*place)?;
            }
        }
        Ok(drawn)
    }
}

/// All rounds, cut into ranges of that many.
pub(crate) fn cut(
    alloc: Global,
    figures: &[RoundFigures],
    length: u32,
) -> Result<Vec<RoundRange>, AllocError> {
    let mut ranges = Vec::new(alloc);
    let mut first = 1u32;
    for part in figures.chunks((length as usize).max(1)) {
        let range = RoundRange::of(first, part);
        first = range.last.saturating_add(1);
        ranges.push(range)?;
    }
    Ok(ranges)
}

/// These ranges, the costliest first; of equal ones the earlier one.
pub(crate) fn by_cost(alloc: Global, ranges: &[RoundRange]) -> Result<Vec<RoundRange>, AllocError> {
    let mut costs = Vec::with_capacity(alloc, ranges.len())?;
    for range in ranges {
        costs.push(range.cost)?;
    }
    items_at(alloc, ranges, &places_from_greatest(alloc, &costs)?)
}
