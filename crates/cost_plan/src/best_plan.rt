//! Cycle cancelling (Klein 1967). Proved: each negative cycle of the residual network keeps the schedule admissible and lowers
//! its cost; if there is none, the potentials give prices that prove it best, by complementary slackness.

ghost use Rattle.std.specs.Prelude.{◌≡◌, ◌+◌, ◌<◌, ◌≤◌, length, drop, slice_index, IfOk};
ghost use Rattle.std.specs.List.{All};
ghost use Rattle.std.specs.Option.{IfSome};
ghost use Rattle.cost_plan.specs.Words.{IsGainingCycle, potential_of, instance_of_rows, live_of_rows, IsSound, IsAdmissible, cost, ProvesBest, pricing_of_rows, IsPricingFor};
ghost use Rattle.cost_plan.specs.Cells.{node_count};
ghost use Rattle.cost_plan.specs.WorkingSchedule.{IsWorkingScheduleOf, schedule_of};
ghost use Rattle.cost_plan.specs.Residual.{IsResidual};
ghost use Rattle.cost_plan.specs.ResourcePrices.{IsAtMost, SettlesAll};
ghost use Rattle.cost_plan.specs.Ties.{KeepsLive};
ghost use Rattle.cost_plan.specs.InTurn.{TakesTurns};

use crate::begin::{Start, begin, guessed, live};
use crate::busy_spans::are_spans_long;
use crate::by_weight::plan_by_weight;
use crate::cells::nodes;
use crate::keep_live::keep_live;
use crate::large_nets::{plan_by_levels, plan_by_repair};
use crate::parts::guessed_at_once;
use crate::plan_progress::{NoPlanProgress, PlanProgress};
use crate::pricing::prices_of;
use crate::relax::relax_all;
use crate::search::search;
use crate::take_turns::take_turns;
use crate::working_schedule::{WorkingSchedule, change_all};
use negative_cycle::Arc;
use round_net::{Net, Prices, Schedule};
use std::alloc::{AllocError, Global};
use std::thread::Threads;

// Up to that many stays a guess by shortest paths and its changes take less time than a plan by repair or by levels.
const FEW_STAYS: u32 = 4096;

/// A schedule of least cost, and prices that prove it.
#[derive(Debug, Drop)]
pub struct BestPlan {
    /// A round for each stay of the net, in creation order.
    pub schedule: Schedule,
    /// What an opening of each device, adapter and link is worth in each round.
    pub prices: Prices,
}

/// A best plan of the net: no admissible schedule costs less than this one, as its prices prove. If the live schedule is a
/// best one, it is the plan's. In any other, stays of one device and one weight are sent in the order in which they were sent
/// live, as far as their windows allow them to change rounds; only where there are more than 4,096 of them, and the window of
/// one ends before the last round, may they be sent in another. Which of several such plans it is isn't promised. It begins
/// with the order by weight, which is the plan if prices in closed form prove it. Else, for a net of more than 4,096 stays, a plan by
/// repair of that order and one by levels of time are tried. Then it makes a guess by shortest paths, and as long as some stays can
/// change rounds together so that all cost less, it changes them.
pub fn plan(alloc: Global, net: &Net) -> Result<BestPlan, AllocError>
    ensures proved { IfOk result (λ best. ProvesBest (instance_of_rows net.now) (slice_index best.schedule) (pricing_of_rows best.prices)) }
    ensures stays { IfOk result (λ best. length best.schedule ≡ (instance_of_rows net.now).stays) }
    ensures cells { IfOk result (λ best. IsPricingFor (instance_of_rows net.now) best.prices) }
    ensures small { IfOk result (λ best. IsAtMost (instance_of_rows net.now) (pricing_of_rows best.prices) (instance_of_rows net.now).max_price) }
    ensures live { IfOk result (λ best. KeepsLive (instance_of_rows net.now) (live_of_rows net.now) (slice_index best.schedule)) }
    ensures turns { IfOk result (λ best. TakesTurns (instance_of_rows net.now) (live_of_rows net.now) (slice_index best.schedule)) }
{
    let best = match proved_guess(alloc, net, &NoPlanProgress)? {
        Some(best) => best,
        None => settled(alloc, net, begin(alloc, net)?)?,
    };
    let in_turn = take_turns(alloc, net, best)?;
    keep_live(alloc, net, in_turn)
}

/// A best plan of the net, as `plan` makes it. But the guess by shortest paths is made for each part that has a stay by itself, and
/// for all of them at once: for one by the caller's thread, and for each other one by a thread of its own. A part is all adapters on one
/// link, or an adapter on no link. The thread that begins a part passes its least adapter to `progress` first. Where no thread can be
/// started, the one that would have started it makes the part. The order by weight and plans by repair and by levels of time,
/// which are tried before, are made by the caller's thread, which passes to `progress` how far they are.
pub fn plan_with<G: PlanProgress + Sync, R: Threads + Sync>(
    rt: &R,
    alloc: Global,
    net: &Net,
    progress: &G,
) -> Result<BestPlan, AllocError>
    ensures proved { IfOk result (λ best. ProvesBest (instance_of_rows net.now) (slice_index best.schedule) (pricing_of_rows best.prices)) }
    ensures stays { IfOk result (λ best. length best.schedule ≡ (instance_of_rows net.now).stays) }
    ensures cells { IfOk result (λ best. IsPricingFor (instance_of_rows net.now) best.prices) }
    ensures small { IfOk result (λ best. IsAtMost (instance_of_rows net.now) (pricing_of_rows best.prices) (instance_of_rows net.now).max_price) }
    ensures live { IfOk result (λ best. KeepsLive (instance_of_rows net.now) (live_of_rows net.now) (slice_index best.schedule)) }
    ensures turns { IfOk result (λ best. TakesTurns (instance_of_rows net.now) (live_of_rows net.now) (slice_index best.schedule)) }
{
    let best = match proved_guess(alloc, net, progress)? {
        Some(best) => best,
        None => match guessed_at_once(rt, alloc, net, progress)? {
            Some(start) => settled(alloc, net, start)?,
            None => settled(alloc, net, live(alloc, net)?)?,
        },
    };
    let in_turn = take_turns(alloc, net, best)?;
    keep_live(alloc, net, in_turn)
}

// A guess whose prices prove it best, if there is one: the order by weight, or for a net of many stays a plan by repair or by
// levels.
fn proved_guess<G: PlanProgress>(
    alloc: Global,
    net: &Net,
    progress: &G,
) -> Result<Option<BestPlan>, AllocError>
    ensures proved { IfOk result (λ found. IfSome found (λ best. ProvesBest (instance_of_rows net.now) (slice_index best.schedule) (pricing_of_rows best.prices))) }
    ensures stays { IfOk result (λ found. IfSome found (λ best. length best.schedule ≡ (instance_of_rows net.now).stays)) }
    ensures cells { IfOk result (λ found. IfSome found (λ best. IsPricingFor (instance_of_rows net.now) best.prices)) }
    ensures small { IfOk result (λ found. IfSome found (λ best. IsAtMost (instance_of_rows net.now) (pricing_of_rows best.prices) (instance_of_rows net.now).max_price)) }
{
    if let Some(best) = plan_by_weight(alloc, net)? {
        return Ok(Some(best));
    }
    if net.stays() <= FEW_STAYS {
        return Ok(None);
    }
    if are_spans_long(alloc, net)? {
        match plan_by_levels(alloc, net, progress)? {
            Some(best) => Ok(Some(best)),
            None => plan_by_repair(alloc, net, progress),
        }
    } else {
        match plan_by_repair(alloc, net, progress)? {
            Some(best) => Ok(Some(best)),
            None => plan_by_levels(alloc, net, progress),
        }
    }
}

// The best plan that comes of a working schedule with potentials.
fn settled(alloc: Global, net: &Net, begun: Start) -> Result<BestPlan, AllocError>
    requires working { IsWorkingScheduleOf (instance_of_rows net.now) begun.working }
    requires admissible { IsAdmissible (instance_of_rows net.now) (schedule_of begun.working) }
    requires size { length begun.potentials.potentials ≡ node_count (instance_of_rows net.now) }
    requires most { begun.potentials.most ≡ (instance_of_rows net.now).max_price }
    ensures proved { IfOk result (λ best. ProvesBest (instance_of_rows net.now) (slice_index best.schedule) (pricing_of_rows best.prices)) }
    ensures stays { IfOk result (λ best. length best.schedule ≡ (instance_of_rows net.now).stays) }
    ensures cells { IfOk result (λ best. IsPricingFor (instance_of_rows net.now) best.prices) }
    ensures small { IfOk result (λ best. IsAtMost (instance_of_rows net.now) (pricing_of_rows best.prices) (instance_of_rows net.now).max_price) }
{
    let mut start = begun;
    let mut path = Vec::with_capacity(alloc, nodes(net) as usize)?;
    while let Some(place) = search(net, &start.working, &mut start.potentials, &mut path)? {
        improve(net, &mut start.working, &path, place);
    }
    best_of(alloc, net, &start)
}

/// The guess by shortest paths, if its potentials settle all that can be changed in it. `plan` then changes nothing of it. That
/// there is such a guess isn't promised.
pub fn guessed_plan(alloc: Global, net: &Net) -> Result<Option<BestPlan>, AllocError>
    ensures proved { IfOk result (λ found. IfSome found (λ best. ProvesBest (instance_of_rows net.now) (slice_index best.schedule) (pricing_of_rows best.prices))) }
    ensures stays { IfOk result (λ found. IfSome found (λ best. length best.schedule ≡ (instance_of_rows net.now).stays)) }
    ensures cells { IfOk result (λ found. IfSome found (λ best. IsPricingFor (instance_of_rows net.now) best.prices)) }
    ensures small { IfOk result (λ found. IfSome found (λ best. IsAtMost (instance_of_rows net.now) (pricing_of_rows best.prices) (instance_of_rows net.now).max_price)) }
{
    match guessed(alloc, net)? {
        Some(start) => unchanged(alloc, net, start),
        None => Ok(None),
    }
}

/// The same of the guess by shortest paths that `plan_with` makes.
pub fn guessed_plan_with<G: PlanProgress + Sync, R: Threads + Sync>(
    rt: &R,
    alloc: Global,
    net: &Net,
    progress: &G,
) -> Result<Option<BestPlan>, AllocError>
    ensures proved { IfOk result (λ found. IfSome found (λ best. ProvesBest (instance_of_rows net.now) (slice_index best.schedule) (pricing_of_rows best.prices))) }
    ensures stays { IfOk result (λ found. IfSome found (λ best. length best.schedule ≡ (instance_of_rows net.now).stays)) }
    ensures cells { IfOk result (λ found. IfSome found (λ best. IsPricingFor (instance_of_rows net.now) best.prices)) }
    ensures small { IfOk result (λ found. IfSome found (λ best. IsAtMost (instance_of_rows net.now) (pricing_of_rows best.prices) (instance_of_rows net.now).max_price)) }
{
    match guessed_at_once(rt, alloc, net, progress)? {
        Some(start) => unchanged(alloc, net, start),
        None => Ok(None),
    }
}

// The plan of a working schedule with potentials, if these settle all that can be changed in it.
fn unchanged(alloc: Global, net: &Net, begun: Start) -> Result<Option<BestPlan>, AllocError>
    requires sound { IsSound (instance_of_rows net.now) (live_of_rows net.now) }
    requires working { IsWorkingScheduleOf (instance_of_rows net.now) begun.working }
    requires admissible { IsAdmissible (instance_of_rows net.now) (schedule_of begun.working) }
    requires size { length begun.potentials.potentials ≡ node_count (instance_of_rows net.now) }
    requires most { begun.potentials.most ≡ (instance_of_rows net.now).max_price }
    ensures proved { IfOk result (λ found. IfSome found (λ best. ProvesBest (instance_of_rows net.now) (slice_index best.schedule) (pricing_of_rows best.prices))) }
    ensures stays { IfOk result (λ found. IfSome found (λ best. length best.schedule ≡ (instance_of_rows net.now).stays)) }
    ensures cells { IfOk result (λ found. IfSome found (λ best. IsPricingFor (instance_of_rows net.now) best.prices)) }
    ensures small { IfOk result (λ found. IfSome found (λ best. IsAtMost (instance_of_rows net.now) (pricing_of_rows best.prices) (instance_of_rows net.now).max_price)) }
{
    let mut start = begun;
    if relax_all(net, &start.working, &mut start.potentials).is_some() {
        return Ok(None);
    }
    Ok(Some(best_of(alloc, net, &start)?))
}

// The plan of a working schedule in which the potentials settle all that can be changed.
fn best_of(alloc: Global, net: &Net, best: &Start) -> Result<BestPlan, AllocError>
    requires sound { IsSound (instance_of_rows net.now) (live_of_rows net.now) }
    requires working { IsWorkingScheduleOf (instance_of_rows net.now) best.now.working }
    requires admissible { IsAdmissible (instance_of_rows net.now) (schedule_of best.now.working) }
    requires size { length best.now.potentials.potentials ≡ node_count (instance_of_rows net.now) }
    requires most { best.now.potentials.most ≡ (instance_of_rows net.now).max_price }
    requires settled { SettlesAll (instance_of_rows net.now) (schedule_of best.now.working) (potential_of best.now.potentials) }
    ensures proved { IfOk result (λ best. ProvesBest (instance_of_rows net.now) (slice_index best.schedule) (pricing_of_rows best.prices)) }
    ensures stays { IfOk result (λ best. length best.schedule ≡ (instance_of_rows net.now).stays) }
    ensures cells { IfOk result (λ best. IsPricingFor (instance_of_rows net.now) best.prices) }
    ensures small { IfOk result (λ best. IsAtMost (instance_of_rows net.now) (pricing_of_rows best.prices) (instance_of_rows net.now).max_price) }
{
    Ok(BestPlan {
        schedule: Schedule::new(alloc, &best.working.rounds)?,
        prices: prices_of(alloc, net, &best.potentials)?,
    })
}

// Makes the changes of a cycle, which stand in `path` from `place` on.
fn improve(net: &Net, working: &mut WorkingSchedule, path: &[Arc], place: usize)
    requires sound { IsSound (instance_of_rows net.now) (live_of_rows net.now) }
    requires working { IsWorkingScheduleOf (instance_of_rows net.now) working.old }
    requires admissible { IsAdmissible (instance_of_rows net.now) (schedule_of working.old) }
    requires gains { IsGainingCycle (drop place path.now) }
    requires residual { All (IsResidual (instance_of_rows net.now) (schedule_of working.old)) (drop place path.now) }
    requires place { place ≤ length path.now }
    ensures working { IsWorkingScheduleOf (instance_of_rows net.now) working.new }
    ensures admissible { IsAdmissible (instance_of_rows net.now) (schedule_of working.new) }
    ensures cheaper { cost (instance_of_rows net.now) (schedule_of working.new) < cost (instance_of_rows net.now) (schedule_of working.old) }
{
    change_all(net, working, &path[place..]);
}
