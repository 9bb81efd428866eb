//! The guess of a plan, made for all parts at once. Proved: if there is one, its working schedule is admissible, and it has a potential for
//! each node; and which parts there are.

ghost use Rattle.std.specs.Prelude.{◌≡◌, ℕ, ◌+◌, ◌*◌, ◌<◌, length, All, Contains, IfOk, OnOk};
ghost use Rattle.std.specs.List.Sorted.{IsStrictlyIncreasing};
ghost use Rattle.std.specs.Option.{IfSome};
ghost use Rattle.cost_plan.specs.Words.{rows, instance_of_rows, live_of_rows, IsSound, IsAdmissible};
ghost use Rattle.cost_plan.specs.Cells.{node_count};
ghost use Rattle.cost_plan.specs.Parts.{part_of_stay, before, resources_before, busy_parts, HasStay, IsPut, AreAllPut, IsStartOf, IsTogether};
ghost use Rattle.cost_plan.specs.WorkingSchedule.{IsWorkingScheduleOf, schedule_of};

use crate::begin::Start;
use crate::cells::nodes;
use crate::part::{Part, guess_part, put_potentials, put_rounds};
use crate::part_name::has_stay;
use crate::plan_progress::PlanProgress;
use crate::working_schedule::{live_rounds, working_schedule_of};
use negative_cycle::Potentials;
use round_net::Net;
use std::alloc::{AllocError, Global};
use std::thread::{Threads, map_indices};

/// The guesses for all parts that have a stay, made at once and put together, if that keeps windows and caps. One is made
/// by the caller's thread, and each other one by a thread of its own. Where no thread can be started, the one that would have
/// started it makes the guess.
pub fn guessed_at_once<G: PlanProgress + Sync, R: Threads + Sync>(
    rt: &R,
    alloc: Global,
    net: &Net,
    progress: &G,
) -> Result<Option<Start>, AllocError>
    ensures working { IfOk result (λ found. IfSome found (λ start. IsWorkingScheduleOf (instance_of_rows net.now) start.working)) }
    ensures admissible { IfOk result (λ found. IfSome found (λ start. IsAdmissible (instance_of_rows net.now) (schedule_of start.working))) }
    ensures size { IfOk result (λ found. IfSome found (λ start. length start.potentials.potentials ≡ node_count (instance_of_rows net.now))) }
    ensures most { IfOk result (λ found. IfSome found (λ start. start.potentials.most ≡ (instance_of_rows net.now).max_price)) }
    ensures sound { IsSound (instance_of_rows net.now) (live_of_rows net.now) }
{
    let busy = busy_parts(alloc, net)?;
    let parts = map_indices(
        rt,
        alloc,
        busy.len(),
        &|place| { part_behind(alloc, net, progress, busy[place]) },
    )?;
    put_together(alloc, net, parts)
}

// The guess that the parts make together, if it keeps windows and caps. Stays in none of them keep their live rounds.
fn put_together(
    alloc: Global,
    net: &Net,
    parts: Vec<Result<Option<Part>, AllocError>>,
) -> Result<Option<Start>, AllocError>
    ensures working { IfOk result (λ found. IfSome found (λ start. IsWorkingScheduleOf (instance_of_rows net.now) start.working)) }
    ensures admissible { IfOk result (λ found. IfSome found (λ start. IsAdmissible (instance_of_rows net.now) (schedule_of start.working))) }
    ensures size { IfOk result (λ found. IfSome found (λ start. length start.potentials.potentials ≡ node_count (instance_of_rows net.now))) }
    ensures most { IfOk result (λ found. IfSome found (λ start. start.potentials.most ≡ (instance_of_rows net.now).max_price)) }
    ensures together { IfOk result (IsTogether (instance_of_rows net.now) (live_of_rows net.now) parts.items) }
{
    let mut rounds = live_rounds(alloc, net)?;
    let mut potentials = vec![in alloc; 0u64; nodes(net) as usize]?;
    put_all(net, &mut rounds, &mut potentials, parts)?;
    start_of(alloc, net, rounds, &potentials)
}

// Puts all parts in, one after the other, unless one wasn't made.
fn put_all(
    net: &Net,
    rounds: &mut Vec<u32>,
    potentials: &mut Vec<u64>,
    parts: Vec<Result<Option<Part>, AllocError>>,
) -> Result<(), AllocError>
    requires rounds { length rounds.old.items ≡ (instance_of_rows net.now).stays }
    requires potentials { length potentials.old.items ≡ node_count (instance_of_rows net.now) }
    ensures rounds { OnOk result (length rounds.new.items ≡ (instance_of_rows net.now).stays) }
    ensures potentials { OnOk result (length potentials.new.items ≡ node_count (instance_of_rows net.now)) }
    ensures put { OnOk result (AreAllPut (instance_of_rows net.now) parts.items rounds.old.items potentials.old.items rounds.new.items potentials.new.items) }
{
    for part in parts {
        put(net, rounds, potentials, part?);
    }
    Ok(())
}

// The working schedule of these rounds with these potentials, if it keeps windows and caps.
fn start_of(
    alloc: Global,
    net: &Net,
    rounds: Vec<u32>,
    potentials: &[u64],
) -> Result<Option<Start>, AllocError>
    requires rounds { length rounds.items ≡ (instance_of_rows net.now).stays }
    requires potentials { length potentials.now ≡ node_count (instance_of_rows net.now) }
    ensures working { IfOk result (λ found. IfSome found (λ start. IsWorkingScheduleOf (instance_of_rows net.now) start.working)) }
    ensures admissible { IfOk result (λ found. IfSome found (λ start. IsAdmissible (instance_of_rows net.now) (schedule_of start.working))) }
    ensures size { IfOk result (λ found. IfSome found (λ start. length start.potentials.potentials ≡ node_count (instance_of_rows net.now))) }
    ensures most { IfOk result (λ found. IfSome found (λ start. start.potentials.most ≡ (instance_of_rows net.now).max_price)) }
    ensures of { IfOk result (IsStartOf (instance_of_rows net.now) rounds.items potentials.now) }
{
    let potentials = Potentials::start(alloc, potentials, net.max_price())?;
    let Some(working) = working_schedule_of(alloc, net, rounds)? else {
        return Ok(None);
    };
    Ok(Some(Start {
        working,
        potentials,
    }))
}

// Puts a part in, if there is one.
fn put(net: &Net, rounds: &mut Vec<u32>, potentials: &mut Vec<u64>, part: Option<Part>)
    requires rounds { length rounds.old.items ≡ (instance_of_rows net.now).stays }
    requires potentials { length potentials.old.items ≡ node_count (instance_of_rows net.now) }
    ensures rounds { length rounds.new.items ≡ length rounds.old.items }
    ensures potentials { length potentials.new.items ≡ length potentials.old.items }
    ensures put { IsPut (instance_of_rows net.now) part rounds.old.items potentials.old.items rounds.new.items potentials.new.items }
{
    if let Some(part) = part {
        put_rounds(net, rounds, &part);
        put_potentials(net, potentials, &part);
    }
}

// Reports that the part begins, and makes it.
fn part_behind<G: PlanProgress>(
    alloc: Global,
    net: &Net,
    progress: &G,
    adapter: u32,
) -> Result<Option<Part>, AllocError>
    ensures own { IfOk result (λ found. IfSome found (λ part. part.adapter ≡ adapter)) }
    ensures rounds { let net = instance_of_rows net.now in IfOk result (λ found. IfSome found (λ part. length part.guess.rounds.items ≡ before net adapter net.stays)) }
    ensures potentials { let net = instance_of_rows net.now in IfOk result (λ found. IfSome found (λ part. length part.guess.potentials.items ≡ resources_before net adapter (rows net) * (net.rounds + 1) + 1)) }
{
    progress.begun(adapter);
    guess_part(alloc, net, adapter)
}

// The parts that have a stay, each by its least adapter, and once.
fn busy_parts(alloc: Global, net: &Net) -> Result<Vec<u32>, AllocError>
    ensures parts { IfOk result (λ busy. busy.items ≡ busy_parts (instance_of_rows net.now)) }
    ensures rising { IfOk result (λ busy. IsStrictlyIncreasing busy.items) }
    ensures some { IfOk result (λ busy. All (HasStay (instance_of_rows net.now)) busy.items) }
    ensures all { let net = instance_of_rows net.now in IfOk result (λ busy. (stay : ℕ) → stay < net.stays → Contains busy.items (part_of_stay net stay)) }
    ensures sound { IsSound (instance_of_rows net.now) (live_of_rows net.now) }
{
    let mut busy = Vec::new(alloc);
    for adapter in 0..net.adapters() {
        if has_stay(net, adapter) {
            busy.push(adapter)?;
        }
    }
    Ok(busy)
}
