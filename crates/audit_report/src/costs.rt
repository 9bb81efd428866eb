//! What the live schedule cost, what a best one costs, and the excess.

ghost use Rattle.std.specs.Prelude.{◌≡◌, ◌-◌, ◌*◌, ◌≤◌, length, slice_index};
ghost use Rattle.audit_report.specs.Words.{instance_of_rows, live_of_rows, IsAdmissible, cost, IsBest, MAX_NET_STAYS, MAX_NET_ROUNDS, MAX_WEIGHT};

use round_net::{Net, Schedule, cost, live_cost};

/// What waiting cost, in weighted rounds.
#[derive(Clone, Copy)]
pub struct Costs {
    /// By the live schedule.
    pub live: u64,
    /// By a best schedule.
    pub best: u64,
    /// How much more the live one cost.
    pub excess: u64,
}

impl Costs {
    /// What waiting cost, beside a best schedule of the net.
    pub fn of(net: &Net, schedule: &Schedule) -> Costs
        requires stays { length schedule.now ≡ (instance_of_rows net.now).stays }
        requires admissible { IsAdmissible (instance_of_rows net.now) (slice_index schedule.now) }
        requires best { IsBest (instance_of_rows net.now) (slice_index schedule.now) }
        ensures live { result.live ≡ cost (instance_of_rows net.now) (live_of_rows net.now) }
        ensures best { result.best ≡ cost (instance_of_rows net.now) (slice_index schedule.now) }
        ensures excess { result.excess ≡ result.live - result.best }
        ensures small { result.live ≤ MAX_NET_STAYS * (MAX_WEIGHT * MAX_NET_ROUNDS) }
    {
        let live = live_cost(net);
        let Some(best) = cost(net, schedule) else {
            unreachable!()
        };
        Costs {
            live,
            best,
            excess: live - best,
        }
    }
}
