//! What can be changed in a working schedule, as arcs. Proved: each arc is the one that the definitions name, between nodes of the graph.

ghost use Rattle.std.specs.Prelude.{◌≡◌, ◌*◌, ◌/◌, ◌<◌, ◌≤◌};
ghost use Rattle.cost_plan.specs.Words.{rows, instance_of_rows, live_of_rows, load, IsSound};
ghost use Rattle.cost_plan.specs.Cells.{resource_above, node_count};
ghost use Rattle.cost_plan.specs.WorkingSchedule.{IsWorkingScheduleOf, schedule_of};
ghost use Rattle.cost_plan.specs.Residual.{move_arc, take_arc, give_arc};

use crate::cells::{node, node_above};
use crate::working_schedule::WorkingSchedule;
use negative_cycle::Arc;
use round_net::Net;

/// How many stays a cell has.
pub fn load(net: &Net, working: &WorkingSchedule, resource: u32, round: u32) -> u32
    requires working { IsWorkingScheduleOf (instance_of_rows net.now) working.now }
    requires resource { resource < rows (instance_of_rows net.now) }
    requires round { round ≤ (instance_of_rows net.now).rounds }
    ensures { result ≡ load (instance_of_rows net.now) (schedule_of working.now) resource round }
{
    working.loads[node(net, resource, round) as usize]
}

/// The arc of one stay more in a cell, by the resource above.
pub fn adding(net: &Net, resource: u32, up: u32, round: u32) -> Arc
    requires resource { resource < rows (instance_of_rows net.now) }
    requires up { up ≡ resource_above (instance_of_rows net.now) resource }
    requires within { up ≤ rows (instance_of_rows net.now) }
    requires round { round ≤ (instance_of_rows net.now).rounds }
    ensures same { result ≡ take_arc (instance_of_rows net.now) resource round }
    ensures tail { result.tail < node_count (instance_of_rows net.now) }
    ensures head { result.head < node_count (instance_of_rows net.now) }
    ensures up { result.up ≡ 0 }
{
    Arc {
        tail: node(net, resource, round),
        head: node_above(net, up, round),
        up: 0,
        down: 0,
        mark: None,
    }
}

/// The arc of one stay less in a cell, by the resource above.
pub fn removing(net: &Net, resource: u32, up: u32, round: u32) -> Arc
    requires resource { resource < rows (instance_of_rows net.now) }
    requires up { up ≡ resource_above (instance_of_rows net.now) resource }
    requires within { up ≤ rows (instance_of_rows net.now) }
    requires round { round ≤ (instance_of_rows net.now).rounds }
    ensures same { result ≡ give_arc (instance_of_rows net.now) resource round }
    ensures tail { result.tail < node_count (instance_of_rows net.now) }
    ensures head { result.head < node_count (instance_of_rows net.now) }
    ensures up { result.up ≡ 0 }
{
    let arc = adding(net, resource, up, round);
    Arc {
        tail: arc.head,
        head: arc.tail,
        up: 0,
        down: 0,
        mark: None,
    }
}

/// The arc of a stay that moves to another round.
pub fn moving(net: &Net, working: &WorkingSchedule, stay: u32, round: u32) -> Arc
    requires working { IsWorkingScheduleOf (instance_of_rows net.now) working.now }
    requires stay { stay < (instance_of_rows net.now).stays }
    requires round { round ≤ (instance_of_rows net.now).rounds }
    ensures same { result ≡ move_arc (instance_of_rows net.now) (schedule_of working.now) stay round }
    ensures tail { result.tail < node_count (instance_of_rows net.now) }
    ensures head { result.head < node_count (instance_of_rows net.now) }
    ensures up { result.up * node_count (instance_of_rows net.now) ≤ (instance_of_rows net.now).max_price / 4 }
    ensures sound { IsSound (instance_of_rows net.now) (live_of_rows net.now) }
{
    let device = net.device(stay);
    let weight = net.weight(stay);
    let now = working.rounds[stay as usize];
    Arc {
        tail: node(net, device, now),
        head: node(net, device, round),
        up: weight * now,
        down: weight * round,
        mark: Some(stay),
    }
}
