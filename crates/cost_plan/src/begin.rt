//! Where the planner begins: with a guess at a best plan, or with the live schedule. Proved: the working schedule is admissible, and
//! there is a potential for each node.

ghost use Rattle.std.specs.Prelude.{◌≡◌, length, IfOk};
ghost use Rattle.std.specs.Option.{IfSome};
ghost use Rattle.cost_plan.specs.Words.{instance_of_rows, live_of_rows, IsSound, IsAdmissible};
ghost use Rattle.cost_plan.specs.Cells.{node_count};
ghost use Rattle.cost_plan.specs.WorkingSchedule.{IsWorkingScheduleOf, schedule_of};

use crate::cells::nodes;
use crate::problem::{all_stays, problem_of};
use crate::working_schedule::{WorkingSchedule, live_working_schedule, working_schedule_of};
use negative_cycle::Potentials;
use round_net::Net;
use shortest_paths::guess;
use std::alloc::{AllocError, Global};

/// A working schedule, and potentials that are meant to settle all that can be changed in it.
#[derive(Drop)]
pub struct Start {
    pub working: WorkingSchedule,
    pub potentials: Potentials,
}

/// The guess with its potentials, where it keeps windows and caps, and else the live schedule with potentials 0.
pub fn begin(alloc: Global, net: &Net) -> Result<Start, AllocError>
    ensures working { IfOk result (λ start. IsWorkingScheduleOf (instance_of_rows net.now) start.working) }
    ensures admissible { IfOk result (λ start. IsAdmissible (instance_of_rows net.now) (schedule_of start.working)) }
    ensures size { IfOk result (λ start. length start.potentials.potentials ≡ node_count (instance_of_rows net.now)) }
    ensures most { IfOk result (λ start. start.potentials.most ≡ (instance_of_rows net.now).max_price) }
{
    match guessed(alloc, net)? {
        Some(start) => Ok(start),
        None => live(alloc, net),
    }
}

/// The live schedule with potentials 0.
pub fn live(alloc: Global, net: &Net) -> Result<Start, AllocError>
    ensures working { IfOk result (λ start. IsWorkingScheduleOf (instance_of_rows net.now) start.working) }
    ensures admissible { IfOk result (λ start. IsAdmissible (instance_of_rows net.now) (schedule_of start.working)) }
    ensures size { IfOk result (λ start. length start.potentials.potentials ≡ node_count (instance_of_rows net.now)) }
    ensures most { IfOk result (λ start. start.potentials.most ≡ (instance_of_rows net.now).max_price) }
{
    Ok(Start {
        working: live_working_schedule(alloc, net)?,
        potentials: Potentials::new(alloc, nodes(net) as usize, net.max_price())?,
    })
}

/// The guess, where it keeps windows and caps.
pub fn guessed(alloc: Global, net: &Net) -> Result<Option<Start>, AllocError>
    ensures working { IfOk result (λ found. IfSome found (λ start. IsWorkingScheduleOf (instance_of_rows net.now) start.working)) }
    ensures admissible { IfOk result (λ found. IfSome found (λ start. IsAdmissible (instance_of_rows net.now) (schedule_of start.working))) }
    ensures size { IfOk result (λ found. IfSome found (λ start. length start.potentials.potentials ≡ node_count (instance_of_rows net.now))) }
    ensures most { IfOk result (λ found. IfSome found (λ start. start.potentials.most ≡ (instance_of_rows net.now).max_price)) }
    ensures sound { IsSound (instance_of_rows net.now) (live_of_rows net.now) }
{
    let problem = problem_of(alloc, net, all_stays(alloc, net)?)?;
    let Some(found) = guess(alloc, &problem)? else {
        return Ok(None);
    };
    let potentials = Potentials::start(alloc, &found.potentials, net.max_price())?;
    let Some(working) = working_schedule_of(alloc, net, found.rounds)? else {
        return Ok(None);
    };
    Ok(Some(Start {
        working,
        potentials,
    }))
}
