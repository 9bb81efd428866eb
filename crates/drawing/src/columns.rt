//! Columns over rounds, the greatest of each bin.

use crate::round_figures::RoundFigures;
use wording::Page;

/// The most bins across the overview.
const MAX_BINS: usize = 240;

/// How many rounds a bin has.
pub(crate) fn bin_rounds(figures: &[RoundFigures]) -> usize {
    figures.len().div_ceil(MAX_BINS).max(1)
}

/// What a column shows of a round.
#[derive(Clone, Copy)]
pub(crate) enum ColumnValue {
    /// How many waited.
    Waiting,
    /// The weight that waited.
    Cost,
    /// The weight that waits in the best schedule at the recorded pace.
    Paced,
    /// The weight that waits in the best schedule.
    Needed,
    /// How many were sent.
    Sent,
    /// How many could have been.
    Openings,
    /// How many were in flight.
    InFlight,
}

impl ColumnValue {
    /// This of a round.
    pub(crate) fn of(self, figure: &RoundFigures) -> u64 {
        match self {
            ColumnValue::Waiting => figure.waiting,
            ColumnValue::Cost => figure.cost,
            ColumnValue::Paced => figure.paced,
            ColumnValue::Needed => figure.needed,
            ColumnValue::Sent => figure.sent,
            ColumnValue::Openings => figure.openings,
            ColumnValue::InFlight => figure.in_flight,
        }
    }

    /// The greatest of these rounds.
    pub(crate) fn most(self, figures: &[RoundFigures]) -> u64 {
        let mut most = 0;
        for figure in figures {
            most = self.of(figure).max(most);
        }
        most
    }
}

/// How high columns are.
#[derive(Clone, Copy)]
pub(crate) struct Scale {
    /// What the highest one stands for.
    pub(crate) most: u64,
    /// How many pixels high that is.
    pub(crate) height: u64,
    /// Where they stand.
    pub(crate) base: u64,
}

impl Scale {
    // How many pixels high a column of this number is: at least 1, unless it is 0.
    fn tall(self, number: u64) -> u64 {
        if number == 0 {
            return 0;
        }
        number
            .saturating_mul(self.height)
            .checked_div(self.most)
            .unwrap_or(0)
            .max(1)
    }
}

/// Puts a column for each bin into the path that is open.
pub(crate) fn push_columns(
    page: &mut Page,
    figures: &[RoundFigures],
    shown: ColumnValue,
    scale: Scale,
) {
    let mut first = 0usize;
    for bin in figures.chunks(bin_rounds(figures).max(1)) {
        let (base, tall, width) = (scale.base, scale.tall(shown.most(bin)), bin.len());
        if tall > 0 {
            page.show(format_args!("M{first} {base}v-{tall}h{width}v{tall}"));
        }
        first = first.saturating_add(width);
    }
}

/// Puts a line over each bin into the path that is open, at the same height.
pub(crate) fn push_line(
    page: &mut Page,
    figures: &[RoundFigures],
    shown: ColumnValue,
    scale: Scale,
) {
    for (place, bin) in figures.chunks(bin_rounds(figures).max(1)).enumerate() {
        let to = if place == 0 { "M0 " } else { "V" };
        let height = scale.base.saturating_sub(scale.tall(shown.most(bin)));
        page.show(format_args!("{to}{height}h{}", bin.len()));
    }
}
