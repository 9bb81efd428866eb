//! What best schedules of a net and of a changed net cost.

ghost use Rattle.std.specs.Prelude.{ℕ, ◌≤◌, All};
ghost use Rattle.round_net.specs.Rows.{instance_of_rows};
ghost use Rattle.round_net.specs.Schedules.{cost};
ghost use Rattle.round_net.specs.Value.{Pricing, ProvesBest};
ghost use Rattle.what_if.specs.Changes.{IsChangeOf};
ghost use Rattle.what_if.specs.Caps.{changed_net};

use crate::change::Change;
use round_net::Net;

/// A best schedule of the changed net costs no more than a best one of the net.
pub fn best_can_only_fall(net: &Net, changes: &[Change])
    requires { All (IsChangeOf (instance_of_rows net.now)) changes.now }
    ensures { (f g : ℕ → ℕ) (p q : Pricing) → ProvesBest (instance_of_rows net.now) f p → ProvesBest (instance_of_rows (changed_net net.now changes.now)) g q → cost (instance_of_rows (changed_net net.now changes.now)) g ≤ cost (instance_of_rows net.now) f }
{
    let _rounds = net.rounds();
    let _config = net.config();
}
