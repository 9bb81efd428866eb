//! What some stays waited, and what that cost.

ghost use Rattle.std.specs.Prelude.{◌≡◌, ◌≤◌, ◌-ℤ◌, ℕ, pos, length, map, sum_by, if◌then◌else◌, IfOk};
ghost use Rattle.std.specs.List.Sorted.{IsNonDecreasing};
ghost use Rattle.wait_causes.specs.Words.{MAX_NET_STAYS};
ghost use Rattle.wait_causes.specs.Latencies.{latency_of};
ghost use Rattle.wait_causes.specs.Parts.{behind_for, waited, measure, Waited, Live, Pace, Best, rank_of, nearest_rank, costs_of, behind_costs, part_of, AreLight, IsLight};

use crate::behind::{Behind, FullBehind};
use crate::explained_stay::ExplainedStay;
use crate::kind::InputKind;
use crate::known::Known;
use crate::latency::{Latency, latency_of};
use crate::ranks::nearest_rank;
use round_net::{MAX_NET_ROUNDS, WaitCause};
use std::alloc::{AllocError, Global};

/// Weighted rounds by cause.
#[derive(Clone, Copy)]
pub struct CauseCosts {
    /// While the device was frozen by an error.
    pub error: u64,
    /// While a caller had frozen the device.
    pub caller: u64,
    /// While a caller had frozen the adapter.
    pub adapter_frozen: u64,
    /// While the device took nothing.
    pub device_stopped: u64,
    /// While the adapter took nothing.
    pub adapter_stopped: u64,
    /// While the adapter's link took nothing.
    pub link_stopped: u64,
    /// While the device had no opening left.
    pub device_full: u64,
    /// While the adapter had no opening left.
    pub adapter_full: u64,
    /// While the adapter's link had no opening left.
    pub link_full: u64,
    /// While nobody asked.
    pub not_asked: u64,
}

impl CauseCosts {
    ghost use Rattle.wait_causes.specs.Parts.{by_cause};

    /// The causes of such an input, in the order in which they are tested, each with its cost. Those of the other kind of
    /// input cost nothing.
    pub fn by_cause(&self, kind: InputKind) -> [(WaitCause, u64); 7]
        ensures { result ≡ by_cause kind self.now }
    {
        match kind {
            InputKind::Trace => self.of_trace(),
            InputKind::Recording => self.of_recording(),
        }
    }

    fn of_trace(&self) -> [(WaitCause, u64); 7]
        ensures { result ≡ by_cause InputKind.Trace self.now }
    {
        [
            (WaitCause::Error, self.error),
            (WaitCause::Caller, self.caller),
            (WaitCause::AdapterFrozen, self.adapter_frozen),
            (WaitCause::DeviceFull, self.device_full),
            (WaitCause::AdapterFull, self.adapter_full),
            (WaitCause::LinkFull, self.link_full),
            (WaitCause::NotAsked, self.not_asked),
        ]
    }

    fn of_recording(&self) -> [(WaitCause, u64); 7]
        ensures { result ≡ by_cause InputKind.Recording self.now }
    {
        [
            (WaitCause::DeviceStopped, self.device_stopped),
            (WaitCause::AdapterStopped, self.adapter_stopped),
            (WaitCause::LinkStopped, self.link_stopped),
            (WaitCause::DeviceFull, self.device_full),
            (WaitCause::AdapterFull, self.adapter_full),
            (WaitCause::LinkFull, self.link_full),
            (WaitCause::NotAsked, self.not_asked),
        ]
    }
}

/// Weighted rounds in which a row was full, by what that row sent.
#[derive(Clone, Copy)]
pub struct BehindCosts {
    /// Behind a stay of a smaller weight.
    pub less_urgent: u64,
    /// Behind none of a smaller weight, and one of the same.
    pub equal: u64,
    /// Behind stays of larger weights alone.
    pub more_urgent: u64,
}

/// What some stays waited, and what that cost.
#[derive(Clone, Copy)]
pub struct Part {
    /// How many stays these are.
    pub stays: u32,
    /// The rounds that they waited, all together.
    pub waited: u64,
    /// The rounds that one stay waited, by nearest rank: the least number that 50 in a hundred stays didn't pass; 0 of no
    /// stays.
    pub p50: u32,
    /// The least number that 90 in a hundred stays didn't pass.
    pub p90: u32,
    /// The least number that 99 in a hundred stays didn't pass.
    pub p99: u32,
    /// The least number that 999 in a thousand stays didn't pass.
    pub p999: u32,
    /// The least number that none of them passed.
    pub max: u32,
    /// The weighted rounds that they waited.
    pub live: u64,
    /// The weighted rounds that they wait in the best schedule at the recorded pace; none of a trace.
    pub pace: Option<u64>,
    /// The weighted rounds that they wait in the best schedule.
    pub best: u64,
    /// Those of `live`, by cause.
    pub costs: CauseCosts,
    /// Those of full devices, adapters and links, by what stays waited behind.
    pub behind: BehindCosts,
    /// How long they took, if the input says when stays were completed.
    pub latency: Option<Latency>,
}

impl Part {
    /// How much more the live schedule costs than the best one: below 0 where the best one lets these stays wait longer.
    pub fn excess(&self) -> i128
        ensures { result ≡ pos self.now.live -ℤ pos self.now.best }
    {
        self.live as i128 - self.best as i128
    }
}

// What of a stay is added up.
#[derive(Clone, Copy)]
enum Measure {
    Waited,
    Live,
    Pace,
    Best,
    Cost(WaitCause),
    Full(Behind),
}

impl Measure {
    // What this is of a stay.
    fn of(self, stay: &ExplainedStay) -> u64
        requires { IsLight stay.now }
        ensures same { result ≡ measure self stay.now }
        ensures small { result ≤ 4398046511104 }
    {
        let rounds = match self {
            Measure::Waited => return u64::from(stay.waited()),
            Measure::Live => stay.waited(),
            Measure::Pace => stay.waited_at_pace(),
            Measure::Best => stay.best.saturating_sub(stay.arrival),
            Measure::Cost(cause) => stay.rounds.for_cause(cause),
            Measure::Full(behind) => behind_for(&stay.behind, behind),
        };
        u64::from(stay.weight) * u64::from(rounds)
    }
}

// The rounds behind these.
fn behind_for(rounds: &FullBehind, behind: Behind) -> u32
    ensures { result ≡ behind_for behind rounds.now }
{
    match behind {
        Behind::LessUrgent => rounds.less_urgent,
        Behind::Equal => rounds.equal,
        Behind::MoreUrgent => rounds.more_urgent,
    }
}

/// What these stays waited, and what that cost. `known` is what else the input says of its stays.
#[tactic(auto, unfolding(crate::specs::Parts::part_of))]
pub(crate) fn part_of(
    alloc: Global,
    known: Known,
    stays: &[ExplainedStay],
) -> Result<Part, AllocError>
    requires few { length stays.now ≤ MAX_NET_STAYS }
    requires light { AreLight stays.now }
    ensures { IfOk result (λ part. part ≡ part_of known stays.now) }
{
    let waits = waits_of(alloc, stays)?;
    let sums = sums_of(stays);
    Ok(Part {
        stays: stays.len() as u32,
        waited: sums.waited,
        p50: nearest_rank(&waits, MAX_NET_ROUNDS, 500),
        p90: nearest_rank(&waits, MAX_NET_ROUNDS, 900),
        p99: nearest_rank(&waits, MAX_NET_ROUNDS, 990),
        p999: nearest_rank(&waits, MAX_NET_ROUNDS, 999),
        max: nearest_rank(&waits, MAX_NET_ROUNDS, 1000),
        live: sums.live,
        pace: if known.pace {
            Some(pace_of(stays))
        } else {
            None
        },
        best: sums.best,
        costs: sums.costs,
        behind: sums.behind,
        latency: latency_if(alloc, known, stays)?,
    })
}

// Sums over stays.
#[derive(Clone, Copy)]
struct Sums {
    waited: u64,
    live: u64,
    best: u64,
    costs: CauseCosts,
    behind: BehindCosts,
}

impl Sums {
    // Those over no stay.
    const NONE: Sums = Sums {
        waited: 0,
        live: 0,
        best: 0,
        costs: CauseCosts {
            error: 0,
            caller: 0,
            adapter_frozen: 0,
            device_stopped: 0,
            adapter_stopped: 0,
            link_stopped: 0,
            device_full: 0,
            adapter_full: 0,
            link_full: 0,
            not_asked: 0,
        },
        behind: BehindCosts {
            less_urgent: 0,
            equal: 0,
            more_urgent: 0,
        },
    };
}

// The sums over these stays, of which each is read once.
fn sums_of(stays: &[ExplainedStay]) -> Sums
    requires few { length stays.now ≤ MAX_NET_STAYS }
    requires light { AreLight stays.now }
    ensures waited { result.waited ≡ sum_by (measure Waited) stays.now }
    ensures live { result.live ≡ sum_by (measure Live) stays.now }
    ensures best { result.best ≡ sum_by (measure Best) stays.now }
    ensures costs { result.costs ≡ costs_of stays.now }
    ensures behind { result.behind ≡ behind_costs stays.now }
{
    let mut sums = Sums::NONE;
    for stay in stays {
        sums.waited += Measure::Waited.of(stay);
        sums.live += Measure::Live.of(stay);
        sums.best += Measure::Best.of(stay);
        sums.costs.error += Measure::Cost(WaitCause::Error).of(stay);
        sums.costs.caller += Measure::Cost(WaitCause::Caller).of(stay);
        sums.costs.adapter_frozen += Measure::Cost(WaitCause::AdapterFrozen).of(stay);
        sums.costs.device_stopped += Measure::Cost(WaitCause::DeviceStopped).of(stay);
        sums.costs.adapter_stopped += Measure::Cost(WaitCause::AdapterStopped).of(stay);
        sums.costs.link_stopped += Measure::Cost(WaitCause::LinkStopped).of(stay);
        sums.costs.device_full += Measure::Cost(WaitCause::DeviceFull).of(stay);
        sums.costs.adapter_full += Measure::Cost(WaitCause::AdapterFull).of(stay);
        sums.costs.link_full += Measure::Cost(WaitCause::LinkFull).of(stay);
        sums.costs.not_asked += Measure::Cost(WaitCause::NotAsked).of(stay);
        sums.behind.less_urgent += Measure::Full(Behind::LessUrgent).of(stay);
        sums.behind.equal += Measure::Full(Behind::Equal).of(stay);
        sums.behind.more_urgent += Measure::Full(Behind::MoreUrgent).of(stay);
    }
    sums
}

// How long these stays took, if the input says when stays were completed.
fn latency_if(
    alloc: Global,
    known: Known,
    stays: &[ExplainedStay],
) -> Result<Option<Latency>, AllocError>
    requires few { length stays.now ≤ MAX_NET_STAYS }
    ensures { IfOk result (λ latency. latency ≡ (if known.completions then Some (latency_of stays.now) else None)) }
{
    if !known.completions {
        return Ok(None);
    }
    Ok(Some(latency_of(alloc, stays)?))
}

// The weighted rounds that these stays wait at the recorded pace.
fn pace_of(stays: &[ExplainedStay]) -> u64
    requires few { length stays.now ≤ MAX_NET_STAYS }
    requires light { AreLight stays.now }
    ensures { result ≡ sum_by (measure Pace) stays.now }
{
    let mut sum = 0;
    for stay in stays {
        sum += Measure::Pace.of(stay);
    }
    sum
}

// The rounds that each stay waited, in ascending order.
fn waits_of(alloc: Global, stays: &[ExplainedStay]) -> Result<Vec<u32>, AllocError>
    ensures count { IfOk result (λ waits. length waits.items ≡ length stays.now) }
    ensures ascending { IfOk result (λ waits. IsNonDecreasing waits.items) }
    ensures ranks { IfOk result (λ waits. (thousandths : ℕ) → rank_of thousandths waits.items ≡ nearest_rank thousandths stays.now) }
{
    let mut waits = unsorted_waits(alloc, stays)?;
    waits.sort_unstable();
    Ok(waits)
}

// The rounds that each stay waited.
fn unsorted_waits(alloc: Global, stays: &[ExplainedStay]) -> Result<Vec<u32>, AllocError>
    ensures { IfOk result (λ waits. waits.items ≡ map waited stays.now) }
{
    stays.iter().map(|stay| stay.waited()).collect(alloc)
}
