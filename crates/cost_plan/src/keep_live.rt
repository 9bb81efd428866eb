//! Of several best plans, the live one. Proved: where the live schedule is a best one, it is answered.

ghost use Rattle.std.specs.Prelude.{◌≡◌, length, slice_index, IfOk};
ghost use Rattle.cost_plan.specs.Words.{instance_of_rows, live_of_rows, ProvesBest, pricing_of_rows, IsPricingFor};
ghost use Rattle.cost_plan.specs.ResourcePrices.{IsAtMost};
ghost use Rattle.cost_plan.specs.Ties.{KeepsLive};
ghost use Rattle.cost_plan.specs.InTurn.{TakesTurns};

use crate::best_plan::BestPlan;
use crate::working_schedule::live_rounds;
use round_net::{Net, Schedule, cost, live_cost};
use std::alloc::{AllocError, Global};

/// The plan; or the live schedule with the plan's prices, if it costs no more. So if what happened was best, no stay is shown as
/// sent too early or too late.
pub(crate) fn keep_live(alloc: Global, net: &Net, best: BestPlan) -> Result<BestPlan, AllocError>
    requires proved { ProvesBest (instance_of_rows net.now) (slice_index best.schedule) (pricing_of_rows best.prices) }
    requires stays { length best.schedule ≡ (instance_of_rows net.now).stays }
    requires cells { IsPricingFor (instance_of_rows net.now) best.prices }
    requires small { IsAtMost (instance_of_rows net.now) (pricing_of_rows best.prices) (instance_of_rows net.now).max_price }
    requires turns { TakesTurns (instance_of_rows net.now) (live_of_rows net.now) (slice_index best.schedule) }
    ensures proved { IfOk result (λ best. ProvesBest (instance_of_rows net.now) (slice_index best.schedule) (pricing_of_rows best.prices)) }
    ensures stays { IfOk result (λ best. length best.schedule ≡ (instance_of_rows net.now).stays) }
    ensures cells { IfOk result (λ best. IsPricingFor (instance_of_rows net.now) best.prices) }
    ensures small { IfOk result (λ best. IsAtMost (instance_of_rows net.now) (pricing_of_rows best.prices) (instance_of_rows net.now).max_price) }
    ensures live { IfOk result (λ best. KeepsLive (instance_of_rows net.now) (live_of_rows net.now) (slice_index best.schedule)) }
    ensures turns { IfOk result (λ best. TakesTurns (instance_of_rows net.now) (live_of_rows net.now) (slice_index best.schedule)) }
{
    let Some(least) = cost(net, &best.schedule) else {
        unreachable!()
    };
    if least < live_cost(net) {
        return Ok(best);
    }
    let BestPlan {
        schedule: _,
        prices,
    } = best;
    Ok(BestPlan {
        schedule: Schedule::new(alloc, &live_rounds(alloc, net)?)?,
        prices,
    })
}
