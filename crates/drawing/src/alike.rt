//! Stays that are alike: those that are listed as one.

use wait_causes::{ExplainedStay, InputKind, WaitCause};

/// A number of a stay.
#[derive(Clone, Copy)]
pub(crate) enum Figure {
    /// Its priority.
    Priority,
    /// The round in which it came.
    Arrival,
    /// The round in which it was sent.
    Sent,
    /// The round in which the best schedule sends it.
    Best,
    /// How many rounds it waited.
    Waited,
    /// How many of them for this cause.
    WaitedFor(WaitCause),
}

impl Figure {
    // This of a stay.
    fn of(self, stay: &ExplainedStay) -> u32 {
        match self {
            Figure::Priority => stay.priority,
            Figure::Arrival => stay.arrival,
            Figure::Sent => stay.live,
            Figure::Best => stay.best,
            Figure::Waited => stay.live.saturating_sub(stay.arrival),
            Figure::WaitedFor(cause) => stay.rounds.for_cause(cause),
        }
    }

    /// The least and the greatest of these stays, of which there is one at least.
    pub(crate) fn ends(self, stays: &[&ExplainedStay]) -> (u32, u32) {
        let (mut least, mut most) = (u32::MAX, 0);
        for stay in stays {
            let figure = self.of(stay);
            least = figure.min(least);
            most = figure.max(most);
        }
        (least, most)
    }
}

/// Those of these stays, the costliest first, that are alike from this place on: each of the same device, driver and class, with
/// the same main cause, and none that costs over a tenth less than the first one.
pub(crate) fn alike_from<'a, 'b>(
    kind: InputKind,
    stays: &'a [&'b ExplainedStay],
    place: usize,
) -> &'a [&'b ExplainedStay] {
    let (_, rest) = stays.split_at(place.min(stays.len()));
    let (alike, _) = rest.split_at(count_alike(kind, rest).min(rest.len()));
    alike
}

// How many of these stays are alike from the first one on.
fn count_alike(kind: InputKind, stays: &[&ExplainedStay]) -> usize {
    let Some(first) = stays.first() else {
        return 0;
    };
    let (wanted, least) = (likeness(kind, first), first.cost().saturating_mul(9));
    for (count, stay) in stays.iter().enumerate() {
        if likeness(kind, stay) != wanted || stay.cost().saturating_mul(10) < least {
            return count;
        }
    }
    stays.len()
}

// What stays that are alike have in common.
fn likeness(kind: InputKind, stay: &ExplainedStay) -> (u32, u8, u32, WaitCause) {
    (stay.device, stay.driver, stay.level, main_cause(kind, stay))
}

// The cause for which the stay waited most; of equal ones the one that is tested first.
fn main_cause(kind: InputKind, stay: &ExplainedStay) -> WaitCause {
    let (mut main, mut most) = (WaitCause::NotAsked, 0);
    for cause in kind.causes().iter().rev() {
        let rounds = stay.rounds.for_cause(*cause);
        if rounds >= most {
            (main, most) = (*cause, rounds);
        }
    }
    main
}
