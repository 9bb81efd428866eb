//! What each round had: how many waited, what that cost, how many were sent and in flight, and how many could have been sent.

use crate::loads::cap;
use round_net::Net;
use std::alloc::{AllocError, Global};
use wait_causes::ExplainedStay;

/// What a round had.
#[derive(Clone, Copy, Default)]
pub(crate) struct RoundFigures {
    /// How many stays waited in it.
    pub(crate) waiting: u64,
    /// What their waiting in it cost: the weight that waited.
    pub(crate) cost: u64,
    /// The weight that waits in it in the best schedule at the recorded pace; 0 of a trace.
    pub(crate) paced: u64,
    /// The weight that waits in it in the best schedule.
    pub(crate) needed: u64,
    /// How many stays were sent in it.
    pub(crate) sent: u64,
    /// How many were in flight in it: sent in it or before, and completed in it or later. A stay whose completion isn't known
    /// is in flight in the round of its send alone.
    pub(crate) in_flight: u64,
    /// How many the adapters took in it at most, all together.
    pub(crate) openings: u64,
}

/// How many rounds these are.
pub(crate) fn count_of(figures: &[RoundFigures]) -> u32 {
    u32::try_from(figures.len()).unwrap_or(u32::MAX)
}

/// Each round, in order.
pub(crate) fn figures(
    alloc: Global,
    net: &Net,
    stays: &[ExplainedStay],
) -> Result<Vec<RoundFigures>, AllocError> {
    let mut figures = changes(alloc, net.rounds(), stays)?;
    let mut before = RoundFigures::default();
    for (round, figure) in (1..=net.rounds()).zip(figures.iter_mut()) {
        figure.waiting = figure.waiting.wrapping_add(before.waiting);
        figure.cost = figure.cost.wrapping_add(before.cost);
        figure.paced = figure.paced.wrapping_add(before.paced);
        figure.needed = figure.needed.wrapping_add(before.needed);
        figure.in_flight = figure.in_flight.wrapping_add(before.in_flight);
        figure.openings = openings(net, round);
        before = *figure;
    }
    Ok(figures)
}

// How many were sent in each round, and by how much more waited in it than in the round before, cost more, and were in flight:
// wrapped where it is less. A stay that is sent doesn't wait in the round of its send.
fn changes(
    alloc: Global,
    rounds: u32,
    stays: &[ExplainedStay],
) -> Result<Vec<RoundFigures>, AllocError> {
    let mut changes = vec![in alloc; RoundFigures::default(); rounds as usize]?;
    for stay in stays {
        note_waiting(&mut changes, stay);
        note_flight(&mut changes, stay);
        note_schedules(&mut changes, stay);
    }
    Ok(changes)
}

// Notes from which round on a stay waited, and in which it was sent.
fn note_waiting(changes: &mut [RoundFigures], stay: &ExplainedStay) {
    let weight = u64::from(stay.weight);
    if let Some(came) = figure_in(changes, stay.arrival) {
        came.waiting = came.waiting.wrapping_add(1);
        came.cost = came.cost.wrapping_add(weight);
    }
    if let Some(sent) = figure_in(changes, stay.live) {
        sent.sent = sent.sent.saturating_add(1);
        sent.waiting = sent.waiting.wrapping_sub(1);
        sent.cost = sent.cost.wrapping_sub(weight);
    }
}

// Notes from which round on a stay was in flight, and up to which.
fn note_flight(changes: &mut [RoundFigures], stay: &ExplainedStay) {
    if let Some(sent) = figure_in(changes, stay.live) {
        sent.in_flight = sent.in_flight.wrapping_add(1);
    }
    let last = stay.done.unwrap_or(stay.live);
    if let Some(after) = figure_in(changes, last.saturating_add(1)) {
        after.in_flight = after.in_flight.wrapping_sub(1);
    }
}

// Notes from which round on a stay waits in the best schedules, and in which they send it.
fn note_schedules(changes: &mut [RoundFigures], stay: &ExplainedStay) {
    let weight = u64::from(stay.weight);
    if let Some(came) = figure_in(changes, stay.arrival) {
        came.needed = came.needed.wrapping_add(weight);
        if stay.pace.is_some() {
            came.paced = came.paced.wrapping_add(weight);
        }
    }
    if let Some(paced) = figure_in(changes, stay.pace.unwrap_or(0)) {
        paced.paced = paced.paced.wrapping_sub(weight);
    }
    if let Some(best) = figure_in(changes, stay.best) {
        best.needed = best.needed.wrapping_sub(weight);
    }
}

// Those of a round, if there is such a round.
fn figure_in(figures: &mut [RoundFigures], round: u32) -> Option<&mut RoundFigures> {
    figures.get_mut((round as usize).checked_sub(1)?)
}

// How many the adapters took in the round at most.
fn openings(net: &Net, round: u32) -> u64 {
    let mut openings = 0u64;
    for adapter in 0..net.adapters() {
        let row = net.devices().saturating_add(adapter);
        openings = openings.saturating_add(u64::from(cap(net, row, round)));
    }
    openings
}
