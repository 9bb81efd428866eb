//! Whether a schedule keeps windows and caps. Proved: the answer is exact, for both.

ghost use Rattle.std.specs.Prelude.{◌≡◌, ◌↔◌, ◌+◌, ◌<◌, length, true};
ghost use Rattle.cost_plan.specs.Words.{rows, instance_of_rows, live_of_rows, IsSound};
ghost use Rattle.cost_plan.specs.Cells.{rounds_of};
ghost use Rattle.cost_plan.specs.WorkingSchedule.{IsWorkingScheduleOf, schedule_of, KeepWindows, KeepsResource, KeepResources};

use crate::arcs::load;
use crate::working_schedule::WorkingSchedule;
use round_net::Net;

/// Whether each stay lies in its window.
pub fn keep_windows(net: &Net, rounds: &[u32]) -> bool
    requires { length rounds.now ≡ (instance_of_rows net.now).stays }
    ensures exact { (result ≡ true) ↔ KeepWindows (instance_of_rows net.now) (rounds_of rounds.now) (instance_of_rows net.now).stays }
    ensures sound { IsSound (instance_of_rows net.now) (live_of_rows net.now) }
{
    for stay in 0..net.stays() {
        let round = rounds[stay as usize];
        if round < net.arrival(stay) || round > net.last(stay) {
            return false;
        }
    }
    true
}

/// Whether no cell has more stays than it takes.
pub fn keep_caps(net: &Net, working: &WorkingSchedule) -> bool
    requires { IsWorkingScheduleOf (instance_of_rows net.now) working.now }
    ensures { (result ≡ true) ↔ KeepResources (instance_of_rows net.now) (schedule_of working.now) (rows (instance_of_rows net.now)) }
{
    for resource in 0..net.rows() {
        if !keeps_resource(net, working, resource) {
            return false;
        }
    }
    true
}

// Whether no cell of a resource has more stays than it takes.
fn keeps_resource(net: &Net, working: &WorkingSchedule, resource: u32) -> bool
    requires working { IsWorkingScheduleOf (instance_of_rows net.now) working.now }
    requires resource { resource < rows (instance_of_rows net.now) }
    ensures { (result ≡ true) ↔ KeepsResource (instance_of_rows net.now) (schedule_of working.now) resource ((instance_of_rows net.now).rounds + 1) }
{
    for round in 1..net.rounds() + 1 {
        if load(net, working, resource, round) > net.cap(resource, round) {
            return false;
        }
    }
    true
}
