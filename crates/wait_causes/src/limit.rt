//! Limits of latency: how many requests took longer, and how many of these would have been in time in other schedules.

ghost use Rattle.std.specs.Prelude.{◌≡◌, ◌+◌, ◌*◌, ◌^◌, ◌<◌, ◌≤◌, length, count_by, nat_le, IfOk};
ghost use Rattle.wait_causes.specs.Words.{MAX_NET_STAYS};
ghost use Rattle.wait_causes.specs.Limits.{chosen, is_completed, rounds_if, is_in_time, pace_round, is_over, is_by_order, is_by_slots, is_by_device, counts_of, limit_counts};

use crate::explained_stay::ExplainedStay;
use crate::latency::{MAX_LATENCY, latencies_of};
use crate::ranks::nearest_rank;
use crate::table::{Grouping, stays_of};
use std::alloc::{AllocError, Global};

/// Some of the stays.
#[derive(Clone, Copy)]
pub enum StayChoice {
    /// All of them.
    All,
    /// Those of the adapter, device, driver or run level of this number.
    Of(Grouping, u32),
}

/// A limit of latency.
#[derive(Clone, Copy)]
pub struct LatencyLimit {
    /// The stays that it is for.
    pub of: StayChoice,
    /// How many in a thousand of those with a completion have to be in time, at most 1000.
    pub thousandths: u32,
    /// The longest latency that is in time, in nanoseconds.
    pub most: u64,
    /// How long a round is, in nanoseconds.
    pub round: u64,
}

/// How a limit of latency was kept.
#[derive(Clone, Copy)]
pub struct LimitCounts {
    /// The stays with a completion. One without is not counted at all.
    pub requests: u32,
    /// Those of them that took longer than the limit.
    pub over: u32,
    /// Those of `over` that would have been in time in the best schedule at the recorded pace.
    pub by_order: u32,
    /// Those of the others that would have been in time in the best schedule.
    pub by_slots: u32,
    /// The rest of `over`.
    pub device: u32,
    /// Whether as many in a thousand as asked were in time, by nearest rank.
    pub met: bool,
}

/// How the limit was kept.
pub(crate) fn limit_counts(
    alloc: Global,
    stays: &[ExplainedStay],
    limit: &LatencyLimit,
) -> Result<LimitCounts, AllocError>
    requires few { length stays.now ≤ MAX_NET_STAYS }
    requires thousandths { limit.now.thousandths ≤ 1000 }
    ensures { IfOk result (λ counts. counts ≡ limit_counts limit.now stays.now) }
{
    match limit.of {
        StayChoice::All => counts_of(alloc, stays, limit),
        StayChoice::Of(by, number) => {
            let chosen = stays_of(alloc, stays, by, number)?;
            counts_of(alloc, &chosen, limit)
        }
    }
}

// How it was kept by these stays.
#[tactic(auto, unfolding(crate::specs::Limits::counts_of))]
fn counts_of(
    alloc: Global,
    stays: &[ExplainedStay],
    limit: &LatencyLimit,
) -> Result<LimitCounts, AllocError>
    requires few { length stays.now ≤ MAX_NET_STAYS }
    requires thousandths { limit.now.thousandths ≤ 1000 }
    ensures { IfOk result (λ counts. counts ≡ counts_of limit.now stays.now) }
{
    let latencies = latencies_of(alloc, stays)?;
    let rank = nearest_rank(&latencies, MAX_LATENCY, limit.thousandths as usize);
    Ok(LimitCounts {
        requests: completed(stays),
        over: over(stays, limit),
        by_order: by_order(stays, limit),
        by_slots: by_slots(stays, limit),
        device: by_device(stays, limit),
        met: limit.holds(u64::from(rank)),
    })
}

fn completed(stays: &[ExplainedStay]) -> u32
    requires { length stays.now ≤ MAX_NET_STAYS }
    ensures { result ≡ count_by is_completed stays.now }
{
    stays.iter().filter(|stay| stay.done.is_some()).count() as u32
}

fn over(stays: &[ExplainedStay], limit: &LatencyLimit) -> u32
    requires { length stays.now ≤ MAX_NET_STAYS }
    ensures { result ≡ count_by (is_over limit.now) stays.now }
{
    stays.iter().filter(|stay| limit.is_over(stay)).count() as u32
}

fn by_order(stays: &[ExplainedStay], limit: &LatencyLimit) -> u32
    requires { length stays.now ≤ MAX_NET_STAYS }
    ensures { result ≡ count_by (is_by_order limit.now) stays.now }
{
    stays.iter().filter(|stay| limit.is_by_order(stay)).count() as u32
}

fn by_slots(stays: &[ExplainedStay], limit: &LatencyLimit) -> u32
    requires { length stays.now ≤ MAX_NET_STAYS }
    ensures { result ≡ count_by (is_by_slots limit.now) stays.now }
{
    stays.iter().filter(|stay| limit.is_by_slots(stay)).count() as u32
}

fn by_device(stays: &[ExplainedStay], limit: &LatencyLimit) -> u32
    requires { length stays.now ≤ MAX_NET_STAYS }
    ensures { result ≡ count_by (is_by_device limit.now) stays.now }
{
    stays.iter().filter(|stay| limit.is_by_device(stay)).count() as u32
}

impl LatencyLimit {
    // Whether a latency of that many rounds is in time.
    fn holds(&self, rounds: u64) -> bool
        requires { rounds < 2 ^ 33 }
        ensures { result ≡ nat_le (rounds * self.now.round) self.now.most }
    {
        nanoseconds(rounds, self.round) <= u128::from(self.most)
    }

    // Whether the stay is in time if it is sent in that round.
    fn is_in_time(&self, stay: &ExplainedStay, sent: u32) -> bool
        ensures { result ≡ is_in_time self.now stay.now sent }
    {
        self.holds(rounds_if(stay, sent))
    }

    // Whether the stay was completed, and took longer.
    fn is_over(&self, stay: &ExplainedStay) -> bool
        ensures { result ≡ is_over self.now stay.now }
    {
        stay.done.is_some() && !self.is_in_time(stay, stay.live)
    }

    // Whether the stay took longer, and would have been in time at the recorded pace.
    fn is_by_order(&self, stay: &ExplainedStay) -> bool
        ensures { result ≡ is_by_order self.now stay.now }
    {
        self.is_over(stay) && self.is_in_time(stay, pace_round(stay))
    }

    // Whether it would have been in time only with idle slots used.
    fn is_by_slots(&self, stay: &ExplainedStay) -> bool
        ensures { result ≡ is_by_slots self.now stay.now }
    {
        self.is_over(stay)
            && !self.is_in_time(stay, pace_round(stay))
            && self.is_in_time(stay, stay.best)
    }

    // Whether it would not have been in time in either schedule.
    fn is_by_device(&self, stay: &ExplainedStay) -> bool
        ensures { result ≡ is_by_device self.now stay.now }
    {
        self.is_over(stay)
            && !self.is_in_time(stay, pace_round(stay))
            && !self.is_in_time(stay, stay.best)
    }
}

// How many rounds the stay takes if it is sent in that round.
fn rounds_if(stay: &ExplainedStay, sent: u32) -> u64
    ensures same { result ≡ rounds_if stay.now sent }
    ensures few { result < 2 ^ 33 }
{
    match stay.done {
        Some(done) => (u64::from(done.saturating_sub(stay.live)) + u64::from(sent)).saturating_sub(
            u64::from(stay.arrival),
        ),
        None => 0,
    }
}

// The stay's round at the recorded pace; where that isn't known, the one in which it was sent.
fn pace_round(stay: &ExplainedStay) -> u32
    ensures { result ≡ pace_round stay.now }
{
    stay.pace.unwrap_or(stay.live)
}

// How long that many rounds are.
fn nanoseconds(rounds: u64, round: u64) -> u128
    requires { rounds < 2 ^ 33 }
    ensures { result ≡ rounds * round }
{
    u128::from(rounds) * u128::from(round)
}
