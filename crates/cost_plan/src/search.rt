//! The search for a negative cycle in the residual network, by Bellman and Ford. Proved: if there is none, the potentials settle
//! every arc.

ghost use Rattle.std.specs.Prelude.{◌≡◌, length, drop, IfOk};
ghost use Rattle.std.specs.List.{All};
ghost use Rattle.std.specs.Option.{IfSome, IfNone};
ghost use Rattle.cost_plan.specs.Words.{IsGainingCycle, potential_of, instance_of_rows};
ghost use Rattle.cost_plan.specs.Cells.{node_count};
ghost use Rattle.cost_plan.specs.WorkingSchedule.{IsWorkingScheduleOf, schedule_of};
ghost use Rattle.cost_plan.specs.Residual.{IsResidual};
ghost use Rattle.cost_plan.specs.ResourcePrices.{SettlesAll};

use crate::relax::relax_all;
use crate::working_schedule::WorkingSchedule;
use negative_cycle::{Arc, Potentials};
use round_net::Net;
use std::alloc::AllocError;

/// Raises potentials until they settle all that can be changed in a working schedule, or until changes are found that gain together: the
/// answer is then the place in `path` from which on these stand.
pub fn search(
    net: &Net,
    working: &WorkingSchedule,
    potentials: &mut Potentials,
    path: &mut Vec<Arc>,
) -> Result<Option<usize>, AllocError>
    requires working { IsWorkingScheduleOf (instance_of_rows net.now) working.now }
    requires size { length potentials.old.potentials ≡ node_count (instance_of_rows net.now) }
    requires most { potentials.old.most ≡ (instance_of_rows net.now).max_price }
    ensures size { length potentials.new.potentials ≡ length potentials.old.potentials }
    ensures most { potentials.new.most ≡ potentials.old.most }
    ensures settled { IfOk result (λ found. IfNone found (SettlesAll (instance_of_rows net.now) (schedule_of working.now) (potential_of potentials.new))) }
    ensures gains { IfOk result (λ found. IfSome found (λ k. IsGainingCycle (drop k path.new.items))) }
    ensures residual { IfOk result (λ found. IfSome found (λ k. All (IsResidual (instance_of_rows net.now) (schedule_of working.now)) (drop k path.new.items))) }
{
    potentials.restart();
    while let Some(node) = relax_all(net, working, potentials) {
        if let Some(place) = potentials.find_cycle(node, path)? {
            return Ok(Some(place));
        }
    }
    Ok(None)
}
