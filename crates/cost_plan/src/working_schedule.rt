//! The working schedule: a schedule that is being improved, and the load of each cell. Proved: after each change the loads are
//! those of the schedule.

ghost use Rattle.std.specs.Prelude.{◌≡◌, ℕ, ◌+◌, ◌*◌, ◌<◌, ◌≤◌, Some, length, slice_index, slice_set, IfOk};
ghost use Rattle.std.specs.Option.{IfSome, IfNone};
ghost use Rattle.cost_plan.specs.Words.{Arc, rows, instance_of_rows, live_of_rows, IsAdmissible, IsSound, MAX_NET_STAYS};
ghost use Rattle.cost_plan.specs.Cells.{cell, stands, rounds_of};
ghost use Rattle.cost_plan.specs.WorkingSchedule.{AreLoads, IsWorkingScheduleOf, schedule_of};
ghost use Rattle.cost_plan.specs.Residual.{changed, changed_all, MarksWithin};

use crate::cells::{node, resource_above};
use crate::keeping::{keep_caps, keep_windows};
use negative_cycle::Arc;
use round_net::Net;
use std::alloc::{AllocError, Global};

/// A round for each stay, and how many stays each cell has, by the cell's node.
#[derive(Drop)]
pub struct WorkingSchedule {
    pub rounds: Vec<u32>,
    pub loads: Vec<u32>,
}

/// The live schedule.
pub fn live_working_schedule(alloc: Global, net: &Net) -> Result<WorkingSchedule, AllocError>
    ensures working { IfOk result (λ working. IsWorkingScheduleOf (instance_of_rows net.now) working) }
    ensures admissible { IfOk result (λ working. IsAdmissible (instance_of_rows net.now) (schedule_of working)) }
{
    let rounds = live_rounds(alloc, net)?;
    let loads = loads_of(alloc, net, &rounds)?;
    Ok(WorkingSchedule { rounds, loads })
}

/// The working schedule of these rounds, if they keep windows and caps.
pub fn working_schedule_of(
    alloc: Global,
    net: &Net,
    rounds: Vec<u32>,
) -> Result<Option<WorkingSchedule>, AllocError>
    requires { length rounds.items ≡ (instance_of_rows net.now).stays }
    ensures working { IfOk result (λ found. IfSome found (λ working. IsWorkingScheduleOf (instance_of_rows net.now) working)) }
    ensures same { IfOk result (λ found. IfSome found (λ working. working.rounds.items ≡ rounds.items)) }
    ensures admissible { IfOk result (λ found. IfSome found (λ working. IsAdmissible (instance_of_rows net.now) (schedule_of working))) }
    ensures none { IfOk result (λ found. IfNone found (IsAdmissible (instance_of_rows net.now) (rounds_of rounds.items) → ⊥)) }
{
    if !keep_windows(net, &rounds) {
        return Ok(None);
    }
    let loads = loads_of(alloc, net, &rounds)?;
    let working = WorkingSchedule { rounds, loads };
    if !keep_caps(net, &working) {
        return Ok(None);
    }
    Ok(Some(working))
}

/// The round in which each stay was sent.
pub fn live_rounds(alloc: Global, net: &Net) -> Result<Vec<u32>, AllocError>
    ensures len { IfOk result (λ rounds. length rounds.items ≡ (instance_of_rows net.now).stays) }
    ensures live { IfOk result (λ rounds. (s : ℕ) → s < (instance_of_rows net.now).stays → slice_index rounds.items s ≡ live_of_rows net.now s) }
    ensures sound { IsSound (instance_of_rows net.now) (live_of_rows net.now) }
{
    let mut rounds = Vec::with_capacity(alloc, net.stays() as usize)?;
    for stay in 0..net.stays() {
        rounds.push(net.live(stay))?;
    }
    Ok(rounds)
}

// How many stays each cell has.
fn loads_of(alloc: Global, net: &Net, rounds: &[u32]) -> Result<Vec<u32>, AllocError>
    requires len { length rounds.now ≡ (instance_of_rows net.now).stays }
    requires within { (s : ℕ) → s < (instance_of_rows net.now).stays → slice_index rounds.now s ≤ (instance_of_rows net.now).rounds }
    ensures { IfOk result (λ loads. AreLoads (instance_of_rows net.now) (rounds_of rounds.now) (instance_of_rows net.now).stays loads.items) }
{
    let cells = net.rows() * (net.rounds() + 1);
    let mut loads = vec![in alloc; 0; cells as usize]?;
    for stay in 0..net.stays() {
        add(net, &mut loads, stay, rounds[stay as usize]);
    }
    Ok(loads)
}

// Counts a stay in a round, in the cell of its device and in each above.
fn add(net: &Net, loads: &mut Vec<u32>, stay: u32, round: u32)
    requires stay { stay < (instance_of_rows net.now).stays }
    requires round { round ≤ (instance_of_rows net.now).rounds }
    requires size { length loads.old.items ≡ rows (instance_of_rows net.now) * ((instance_of_rows net.now).rounds + 1) }
    requires room { (resource r : ℕ) → resource < rows (instance_of_rows net.now) → r ≤ (instance_of_rows net.now).rounds → slice_index loads.old.items (cell (instance_of_rows net.now) resource r) ≤ MAX_NET_STAYS }
    ensures size { length loads.new.items ≡ length loads.old.items }
    ensures counts { (resource r : ℕ) → resource < rows (instance_of_rows net.now) → r ≤ (instance_of_rows net.now).rounds →
        slice_index loads.new.items (cell (instance_of_rows net.now) resource r) ≡ slice_index loads.old.items (cell (instance_of_rows net.now) resource r) + stands (instance_of_rows net.now) resource r stay round }
{
    let end = net.rows();
    let mut resource = net.device(stay);
    while resource < end {
        let cell = node(net, resource, round);
        loads[cell as usize] += 1;
        resource = resource_above(net, resource);
    }
}

// No longer counts a stay in a round.
fn remove(net: &Net, loads: &mut Vec<u32>, stay: u32, round: u32)
    requires stay { stay < (instance_of_rows net.now).stays }
    requires round { round ≤ (instance_of_rows net.now).rounds }
    requires size { length loads.old.items ≡ rows (instance_of_rows net.now) * ((instance_of_rows net.now).rounds + 1) }
    requires some { (resource r : ℕ) → resource < rows (instance_of_rows net.now) → r ≤ (instance_of_rows net.now).rounds → stands (instance_of_rows net.now) resource r stay round ≤ slice_index loads.old.items (cell (instance_of_rows net.now) resource r) }
    ensures size { length loads.new.items ≡ length loads.old.items }
    ensures counts { (resource r : ℕ) → resource < rows (instance_of_rows net.now) → r ≤ (instance_of_rows net.now).rounds →
        slice_index loads.old.items (cell (instance_of_rows net.now) resource r) ≡ slice_index loads.new.items (cell (instance_of_rows net.now) resource r) + stands (instance_of_rows net.now) resource r stay round }
    ensures few { (instance_of_rows net.now).stays ≤ MAX_NET_STAYS }
{
    let end = net.rows();
    let mut resource = net.device(stay);
    while resource < end {
        let cell = node(net, resource, round);
        loads[cell as usize] -= 1;
        resource = resource_above(net, resource);
    }
}

// Puts a stay into another round.
fn put(net: &Net, working: &mut WorkingSchedule, stay: u32, round: u32)
    requires working { IsWorkingScheduleOf (instance_of_rows net.now) working.old }
    requires stay { stay < (instance_of_rows net.now).stays }
    requires round { round ≤ (instance_of_rows net.now).rounds }
    ensures working { IsWorkingScheduleOf (instance_of_rows net.now) working.new }
    ensures rounds { working.new.rounds.items ≡ slice_set working.old.rounds.items stay round }
{
    remove(net, &mut working.loads, stay, working.rounds[stay as usize]);
    add(net, &mut working.loads, stay, round);
    working.rounds[stay as usize] = round;
}

// Makes one change.
fn change(net: &Net, working: &mut WorkingSchedule, arc: &Arc)
    requires working { IsWorkingScheduleOf (instance_of_rows net.now) working.old }
    requires mark { (stay : ℕ) → arc.now.mark ≡ Some stay → stay < (instance_of_rows net.now).stays }
    ensures working { IsWorkingScheduleOf (instance_of_rows net.now) working.new }
    ensures rounds { working.new.rounds.items ≡ changed (instance_of_rows net.now) working.old.rounds.items arc.now }
{
    if let Some(stay) = arc.mark {
        put(net, working, stay, arc.head % (net.rounds() + 1));
    }
}

/// Makes all changes.
pub fn change_all(net: &Net, working: &mut WorkingSchedule, arcs: &[Arc])
    requires working { IsWorkingScheduleOf (instance_of_rows net.now) working.old }
    requires marks { MarksWithin (instance_of_rows net.now).stays arcs.now }
    ensures working { IsWorkingScheduleOf (instance_of_rows net.now) working.new }
    ensures rounds { working.new.rounds.items ≡ changed_all (instance_of_rows net.now) working.old.rounds.items arcs.now }
{
    for arc in arcs {
        change(net, working, arc);
    }
}
