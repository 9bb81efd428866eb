//! Raises potentials by everything that can be changed in a working schedule, once. Where no potential rises, they settle all of it.

ghost use Rattle.std.specs.Prelude.{◌≡◌, ℕ, ◌+◌, ◌<◌, ◌≤◌, None, length};
ghost use Rattle.cost_plan.specs.Words.{rows, instance_of_rows, potential_of};
ghost use Rattle.cost_plan.specs.Cells.{resource_above, node_count};
ghost use Rattle.cost_plan.specs.ResourcePrices.{SettlesAll};
ghost use Rattle.cost_plan.specs.WorkingSchedule.{IsWorkingScheduleOf, schedule_of};
ghost use Rattle.cost_plan.specs.Raising.{Raises, SettlesMoves, SettlesTake, SettlesGive, SettlesCell, SettlesResource};

use crate::arcs::{adding, load, moving, removing};
use crate::cells::resource_above;
use crate::working_schedule::WorkingSchedule;
use negative_cycle::{Arc, Potentials};
use round_net::Net;

/// Raises potentials by the arc of one stay more in a cell, where it has room. The resource above its own is given.
pub fn relax_take(
    net: &Net,
    working: &WorkingSchedule,
    potentials: &mut Potentials,
    resource: u32,
    up: u32,
    round: u32,
) -> Option<u32>
    requires working { IsWorkingScheduleOf (instance_of_rows net.now) working.now }
    requires size { length potentials.old.potentials ≡ node_count (instance_of_rows net.now) }
    requires most { potentials.old.most ≡ (instance_of_rows net.now).max_price }
    requires resource { resource < rows (instance_of_rows net.now) }
    requires up { up ≡ resource_above (instance_of_rows net.now) resource }
    requires within { up ≤ rows (instance_of_rows net.now) }
    requires first { 1 ≤ round }
    requires last { round ≤ (instance_of_rows net.now).rounds }
    ensures raises { Raises (instance_of_rows net.now) (schedule_of working.now) potentials.old potentials.new result }
    ensures settled { result ≡ None → SettlesTake (instance_of_rows net.now) (schedule_of working.now) potentials.old resource round }
{
    if load(net, working, resource, round) >= net.cap(resource, round) {
        return None;
    }
    potentials.relax(adding(net, resource, up, round))
}

/// Raises potentials by the arc of one stay less in a cell, where it has one. The resource above its own is given.
pub fn relax_give(
    net: &Net,
    working: &WorkingSchedule,
    potentials: &mut Potentials,
    resource: u32,
    up: u32,
    round: u32,
) -> Option<u32>
    requires working { IsWorkingScheduleOf (instance_of_rows net.now) working.now }
    requires size { length potentials.old.potentials ≡ node_count (instance_of_rows net.now) }
    requires most { potentials.old.most ≡ (instance_of_rows net.now).max_price }
    requires resource { resource < rows (instance_of_rows net.now) }
    requires up { up ≡ resource_above (instance_of_rows net.now) resource }
    requires within { up ≤ rows (instance_of_rows net.now) }
    requires first { 1 ≤ round }
    requires last { round ≤ (instance_of_rows net.now).rounds }
    ensures raises { Raises (instance_of_rows net.now) (schedule_of working.now) potentials.old potentials.new result }
    ensures settled { result ≡ None → SettlesGive (instance_of_rows net.now) (schedule_of working.now) potentials.old resource round }
{
    if load(net, working, resource, round) == 0 {
        return None;
    }
    potentials.relax(removing(net, resource, up, round))
}

/// Raises potentials by both arcs of a cell. The resource above its own is given.
pub fn relax_cell(
    net: &Net,
    working: &WorkingSchedule,
    potentials: &mut Potentials,
    resource: u32,
    up: u32,
    round: u32,
) -> Option<u32>
    requires working { IsWorkingScheduleOf (instance_of_rows net.now) working.now }
    requires size { length potentials.old.potentials ≡ node_count (instance_of_rows net.now) }
    requires most { potentials.old.most ≡ (instance_of_rows net.now).max_price }
    requires resource { resource < rows (instance_of_rows net.now) }
    requires up { up ≡ resource_above (instance_of_rows net.now) resource }
    requires within { up ≤ rows (instance_of_rows net.now) }
    requires first { 1 ≤ round }
    requires last { round ≤ (instance_of_rows net.now).rounds }
    ensures raises { Raises (instance_of_rows net.now) (schedule_of working.now) potentials.old potentials.new result }
    ensures settled { result ≡ None → SettlesCell (instance_of_rows net.now) (schedule_of working.now) resource potentials.old round }
{
    let taken = relax_take(net, working, potentials, resource, up, round);
    relax_give(net, working, potentials, resource, up, round).or(taken)
}

/// Raises potentials by the arcs of the cells of a resource.
pub fn relax_resource(
    net: &Net,
    working: &WorkingSchedule,
    potentials: &mut Potentials,
    resource: u32,
) -> Option<u32>
    requires working { IsWorkingScheduleOf (instance_of_rows net.now) working.now }
    requires size { length potentials.old.potentials ≡ node_count (instance_of_rows net.now) }
    requires most { potentials.old.most ≡ (instance_of_rows net.now).max_price }
    requires resource { resource < rows (instance_of_rows net.now) }
    ensures raises { Raises (instance_of_rows net.now) (schedule_of working.now) potentials.old potentials.new result }
    ensures settled { result ≡ None → SettlesResource (instance_of_rows net.now) (schedule_of working.now) potentials.old resource }
{
    let up = resource_above(net, resource);
    let mut found = None;
    for round in 1..net.rounds() + 1 {
        found = relax_cell(net, working, potentials, resource, up, round).or(found);
    }
    found
}

/// Raises potentials by the arcs of a stay that moves within its window.
pub fn relax_moves(
    net: &Net,
    working: &WorkingSchedule,
    potentials: &mut Potentials,
    stay: u32,
) -> Option<u32>
    requires working { IsWorkingScheduleOf (instance_of_rows net.now) working.now }
    requires size { length potentials.old.potentials ≡ node_count (instance_of_rows net.now) }
    requires most { potentials.old.most ≡ (instance_of_rows net.now).max_price }
    requires stay { stay < (instance_of_rows net.now).stays }
    ensures raises { Raises (instance_of_rows net.now) (schedule_of working.now) potentials.old potentials.new result }
    ensures settled { result ≡ None → SettlesMoves (instance_of_rows net.now) (schedule_of working.now) potentials.old stay }
{
    let start = moving(net, working, stay, 0);
    let weight = net.weight(stay);
    let mut found = None;
    for round in net.arrival(stay)..net.last(stay) + 1 {
        let arc = Arc {
            head: start.head + round,
            down: weight * round,
            ..start
        };
        found = potentials.relax(arc).or(found);
    }
    found
}

/// Raises potentials by everything that can be changed in a working schedule, and answers a node that rose, if any did.
pub fn relax_all(net: &Net, working: &WorkingSchedule, potentials: &mut Potentials) -> Option<u32>
    requires working { IsWorkingScheduleOf (instance_of_rows net.now) working.now }
    requires size { length potentials.old.potentials ≡ node_count (instance_of_rows net.now) }
    requires most { potentials.old.most ≡ (instance_of_rows net.now).max_price }
    ensures raises { Raises (instance_of_rows net.now) (schedule_of working.now) potentials.old potentials.new result }
    ensures settled { result ≡ None → SettlesAll (instance_of_rows net.now) (schedule_of working.now) (potential_of potentials.old) }
{
    let moved = relax_stays(net, working, potentials);
    relax_resources(net, working, potentials).or(moved)
}

// Raises potentials by the moves of all stays.
fn relax_stays(net: &Net, working: &WorkingSchedule, potentials: &mut Potentials) -> Option<u32>
    requires working { IsWorkingScheduleOf (instance_of_rows net.now) working.now }
    requires size { length potentials.old.potentials ≡ node_count (instance_of_rows net.now) }
    requires most { potentials.old.most ≡ (instance_of_rows net.now).max_price }
    ensures raises { Raises (instance_of_rows net.now) (schedule_of working.now) potentials.old potentials.new result }
    ensures settled { result ≡ None → (stay : ℕ) → stay < (instance_of_rows net.now).stays → SettlesMoves (instance_of_rows net.now) (schedule_of working.now) potentials.old stay }
{
    let mut found = None;
    for stay in 0..net.stays() {
        found = relax_moves(net, working, potentials, stay).or(found);
    }
    found
}

// Raises potentials by the arcs of all cells.
fn relax_resources(net: &Net, working: &WorkingSchedule, potentials: &mut Potentials) -> Option<u32>
    requires working { IsWorkingScheduleOf (instance_of_rows net.now) working.now }
    requires size { length potentials.old.potentials ≡ node_count (instance_of_rows net.now) }
    requires most { potentials.old.most ≡ (instance_of_rows net.now).max_price }
    ensures raises { Raises (instance_of_rows net.now) (schedule_of working.now) potentials.old potentials.new result }
    ensures settled { result ≡ None → (resource : ℕ) → resource < rows (instance_of_rows net.now) → SettlesResource (instance_of_rows net.now) (schedule_of working.now) potentials.old resource }
{
    let mut found = None;
    for resource in 0..net.rows() {
        found = relax_resource(net, working, potentials, resource).or(found);
    }
    found
}
