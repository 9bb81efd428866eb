//! Of several best schedules, one in which stays of one device and one weight are sent in turn. Proved: it costs as much, and
//! none of two such stays is sent later than the other, whose turn comes after its own, if they could change rounds.

ghost use Rattle.std.specs.Prelude.{◌≡◌, ℕ, ◌<◌, ◌≤◌, true, false, length, slice_index, IfOk};
ghost use Rattle.std.specs.Result.{OnOk};
ghost use Rattle.cost_plan.specs.Words.{instance_of_rows, live_of_rows, IsAdmissible, ProvesBest, pricing_of_rows, IsPricingFor};
ghost use Rattle.cost_plan.specs.ResourcePrices.{IsAtMost};
ghost use Rattle.cost_plan.specs.InTurn.{AreAlike, TakesTurns};
ghost use Rattle.cost_plan.specs.TurnOrder.{IsTurnOrder, AreTurned};

use crate::best_plan::BestPlan;
use crate::one_kind::turn_kind;
use crate::turn_order::turn_order;
use round_net::{Net, Schedule};
use std::alloc::{AllocError, Global};

/// The same plan, but stays of one device and one weight change rounds so that they are sent in turn. More than 4,096 of them
/// are left as they are if the window of one ends before the last round.
pub(crate) fn take_turns(alloc: Global, net: &Net, best: BestPlan) -> Result<BestPlan, AllocError>
    requires proved { ProvesBest (instance_of_rows net.now) (slice_index best.schedule) (pricing_of_rows best.prices) }
    requires stays { length best.schedule ≡ (instance_of_rows net.now).stays }
    requires cells { IsPricingFor (instance_of_rows net.now) best.prices }
    requires small { IsAtMost (instance_of_rows net.now) (pricing_of_rows best.prices) (instance_of_rows net.now).max_price }
    ensures proved { IfOk result (λ best. ProvesBest (instance_of_rows net.now) (slice_index best.schedule) (pricing_of_rows best.prices)) }
    ensures stays { IfOk result (λ best. length best.schedule ≡ (instance_of_rows net.now).stays) }
    ensures cells { IfOk result (λ best. IsPricingFor (instance_of_rows net.now) best.prices) }
    ensures small { IfOk result (λ best. IsAtMost (instance_of_rows net.now) (pricing_of_rows best.prices) (instance_of_rows net.now).max_price) }
    ensures turns { IfOk result (λ best. TakesTurns (instance_of_rows net.now) (live_of_rows net.now) (slice_index best.schedule)) }
{
    let BestPlan { schedule, prices } = best;
    let order = turn_order(alloc, net)?;
    let mut rounds = rounds_in(alloc, net, &schedule)?;
    turn_kinds(alloc, net, &order, &mut rounds)?;
    Ok(BestPlan {
        schedule: Schedule::new(alloc, &rounds)?,
        prices,
    })
}

// The rounds of a schedule.
fn rounds_in(alloc: Global, net: &Net, schedule: &Schedule) -> Result<Vec<u32>, AllocError>
    requires { length schedule.now ≡ (instance_of_rows net.now).stays }
    ensures { IfOk result (λ rounds. rounds.items ≡ schedule.now) }
{
    let mut rounds = Vec::with_capacity(alloc, schedule.len())?;
    for stay in 0..net.stays() {
        rounds.push(schedule.round(stay))?;
    }
    Ok(rounds)
}

// Lets the stays of each device and weight take their turns.
fn turn_kinds(
    alloc: Global,
    net: &Net,
    order: &[u32],
    rounds: &mut Vec<u32>,
) -> Result<(), AllocError>
    requires order { IsTurnOrder (instance_of_rows net.now) (live_of_rows net.now) order.now }
    requires long { length rounds.old.items ≡ (instance_of_rows net.now).stays }
    requires admissible { IsAdmissible (instance_of_rows net.now) (slice_index rounds.old.items) }
    ensures { OnOk result (AreTurned (instance_of_rows net.now) order.now rounds.old.items rounds.new.items (instance_of_rows net.now).stays) }
{
    let mut from = 0;
    while from < order.len() {
        let to = kind_end(net, order, from);
        turn_kind(alloc, net, &order[from..to], rounds)?;
        from = to;
    }
    Ok(())
}

// Up to where the order goes on with stays like the one at this place.
fn kind_end(net: &Net, order: &[u32], from: usize) -> usize
    requires within { (k : ℕ) → k < length order.now → slice_index order.now k < (instance_of_rows net.now).stays }
    requires from { from < length order.now }
    ensures later { from < result }
    ensures within { result ≤ length order.now }
    ensures alike { (k : ℕ) → from ≤ k → k < result → AreAlike (instance_of_rows net.now) (slice_index order.now from) (slice_index order.now k) }
    ensures apart { result < length order.now → ¬ AreAlike (instance_of_rows net.now) (slice_index order.now from) (slice_index order.now result) }
{
    for to in from + 1..order.len() {
        if !are_alike(net, order[from], order[to]) {
            return to;
        }
    }
    order.len()
}

// Whether two stays are of one device and one weight.
fn are_alike(net: &Net, one: u32, other: u32) -> bool
    requires one { one < (instance_of_rows net.now).stays }
    requires other { other < (instance_of_rows net.now).stays }
    ensures yes { result ≡ true → AreAlike (instance_of_rows net.now) one other }
    ensures no { result ≡ false → ¬ AreAlike (instance_of_rows net.now) one other }
{
    net.device(one) == net.device(other) && net.weight(one) == net.weight(other)
}
