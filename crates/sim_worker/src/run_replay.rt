//! A run's history, gone through beside a transport of its own.

ghost use Rattle.std.specs.Prelude.{◌≡◌, ℕ, ◌++◌, [], ◌∷◌, ◌<◌, true, false, length, replicate, take, slice_get, Some, IfOk, IfErr, IfSome, IfNone};
ghost use Rattle.sim_worker.specs.Words.{is_rising, Scenario};
ghost use Rattle.xpt_lock.specs.declared.seat.SeatName.TheVariants as names;
ghost use Rattle.sim_worker.specs.LiveRuns.{EachDriver, rows};
ghost use Rattle.sim_worker.specs.Logs.{IsDriverLog};
ghost use Rattle.sim_worker.specs.Runs.{is_in_time, are_ticks_in_time, may_recovery_rest, may_tick};
ghost use Rattle.sim_worker.specs.Held.{is_held_up};
ghost use Rattle.sim_worker.specs.Faults.{IsStop};
ghost use Rattle.sim_worker.specs.Walks.{AreOn, ArePlaced, AreRising, IsFollowed, IsFollowedTo, IsOf, IsOn, IsSoFar};

use crate::ending::Ending;
use crate::endings::ending;
use crate::log::SeatLog;
use crate::walk::Walk;
use event_rules::{Event, Refusal};
use std::alloc::{AllocError, Global};
use trace_file::{Script, Step};
use xpt_lock::SeatName;
use xpt_state::{Case, Xpt};

/// The rows of a driver.
pub(crate) fn rows(script: &Script, driver: u8) -> &[Step]
    ensures { result.now ≡ rows script.now driver }
{
    match script.drivers().get(driver as usize) {
        Some(steps) => steps,
        None => &[],
    }
}

/// Whether a round may open now, as far as lanes and recovery are concerned.
pub(crate) fn may_tick(xpt: &Xpt) -> bool
    ensures yes { result ≡ true → (s : Scenario) → IsOf s xpt.now → may_tick s.config s.limits xpt.now.events ≡ true }
    ensures no { result ≡ false → (s : Scenario) → IsOf s xpt.now → IsSoFar s xpt.now.events → may_tick s.config s.limits xpt.now.events ≡ true → ⊥ }
{
    xpt.look().heads == 0 && may_recovery_rest(xpt)
}

fn may_recovery_rest(xpt: &Xpt) -> bool
    ensures yes { result ≡ true → (s : Scenario) → IsOf s xpt.now → may_recovery_rest s.limits xpt.now.events ≡ true }
    ensures no { result ≡ false → (s : Scenario) → IsOf s xpt.now → IsSoFar s xpt.now.events → may_recovery_rest s.limits xpt.now.events ≡ true → ⊥ }
{
    match xpt.next_case() {
        Some(case) => is_held_up(xpt, case),
        None => true,
    }
}

/// Whether the case asks for a requeue, which is refused since as many stays began as may.
pub fn is_held_up(xpt: &Xpt, case: Case) -> bool
    ensures { result ≡ is_held_up xpt.now case }
{
    let requeue = Event::Requeue { ccb: case.ccb };
    case.class.asks_requeue() && xpt.refusal(&requeue) == Some(Refusal::StaysFull)
}

// How far the log's driver is after the event that the transport takes next, if it fits. Of another actor nothing is asked.
fn walk_on(script: &Script, log: &SeatLog, walk: Walk, xpt: &Xpt, event: &Event) -> Option<Walk>
    ensures fits { (d : ℕ) → log.now.name ≡ names.Driver d → IsOf script.now xpt.now → is_rising log.now.receipts ≡ true → IsOn script.now (rows script.now d) log.now.receipts xpt.now.events walk →
        IfSome result (λ w. IsOn script.now (rows script.now d) log.now.receipts (xpt.now.events ++ event.now ∷ []) w) }
    ensures none { IfNone result ((d : ℕ) × (log.now.name ≡ names.Driver d) × (IsOf script.now xpt.now → is_rising log.now.receipts ≡ true → IsOn script.now (rows script.now d) log.now.receipts xpt.now.events walk →
        ¬ IsDriverLog script.now (rows script.now d) log.now.receipts (xpt.now.events ++ event.now ∷ []))) }
{
    match log.name {
        SeatName::Driver(driver) => { walk.behind(xpt, rows(script, driver), &log.receipts, event) }
        _ => Some(walk),
    }
}

/// How far the actor of this place is.
pub(crate) fn walk_at(walks: &[Walk], i: usize) -> Walk
    requires { i < length walks.now }
    ensures { slice_get walks.now i ≡ Some result }
{
    walks[i]
}

// All drivers after the event that the transport takes next. False if one doesn't fit.
fn walk_all(script: &Script, logs: &[SeatLog], walks: &mut [Walk], xpt: &Xpt, event: &Event) -> bool
    requires { length walks.old ≡ length logs.now }
    ensures len { length walks.new ≡ length walks.old }
    ensures on { result ≡ true → IsOf script.now xpt.now → AreRising logs.now → AreOn script.now logs.now xpt.now.events walks.old → AreOn script.now logs.now (xpt.now.events ++ event.now ∷ []) walks.new }
    ensures off { result ≡ false → IsOf script.now xpt.now → AreRising logs.now → AreOn script.now logs.now xpt.now.events walks.old →
        ¬ EachDriver (λ d h. IsDriverLog script.now (rows script.now d) h.receipts (xpt.now.events ++ event.now ∷ [])) logs.now }
{
    for i in 0..logs.len() {
        let walk = walk_at(walks, i);
        let Some(next) = walk_on(script, &logs[i], walk, xpt, event) else {
            return false;
        };
        walks[i] = next;
    }
    true
}

// One event more. False if a driver doesn't fit, if a round opens before it may, or if the transport refuses the event.
fn step(script: &Script, logs: &[SeatLog], walks: &mut [Walk], xpt: &mut Xpt, event: &Event) -> bool
    requires { length walks.old ≡ length logs.now }
    ensures len { length walks.new ≡ length walks.old }
    ensures step { result ≡ true → IsOf script.now xpt.old → AreRising logs.now → AreOn script.now logs.now xpt.old.events walks.old →
        IsOf script.now xpt.new × (xpt.new.events ≡ xpt.old.events ++ event.now ∷ []) × AreOn script.now logs.now xpt.new.events walks.new × (is_in_time script.now.config script.now.limits (xpt.old.events, event.now) ≡ true) }
    ensures none { result ≡ false → IsOf script.now xpt.old → AreRising logs.now → AreOn script.now logs.now xpt.old.events walks.old → ¬ IsFollowedTo script.now (xpt.old.events ++ event.now ∷ []) logs.now }
{
    if !walk_all(script, logs, walks, xpt, event) {
        return false;
    }
    if event.is_tick() && !may_tick(xpt) {
        return false;
    }
    match xpt.take(*event) {
        Ok(_) => true,
        Err(_) => false,
    }
}

// Goes through the events with a transport that has taken none. The place of the first at which the run doesn't fit, if
// there is one.
fn pass(
    script: &Script,
    events: &[Event],
    logs: &[SeatLog],
    walks: &mut [Walk],
    xpt: &mut Xpt,
) -> Result<(), usize>
    requires same { length walks.old ≡ length logs.now }
    requires fresh { IsOf script.now xpt.old × (xpt.old.events ≡ []) }
    requires rising { AreRising logs.now }
    requires start { AreOn script.now logs.now [] walks.old }
    ensures len { length walks.new ≡ length walks.old }
    ensures failed { IfErr result (λ place. IsStop script.now events.now logs.now place) }
    ensures passed { IfOk result (λ _. IsOf script.now xpt.new × (xpt.new.events ≡ events.now) × AreOn script.now logs.now events.now walks.new × (are_ticks_in_time script.now.config script.now.limits events.now ≡ true)) }
{
    for place in 0..events.len() {
        // What it took so far is legal by the script's limits.
        let _events = xpt.events();
        if !step(script, logs, walks, xpt, &events[place]) {
            return Err(place);
        }
    }
    Ok(())
}

// How the run ended that these events, logs and walks without anything done are of; or the place at which it doesn't fit.
fn follow_all(
    script: &Script,
    events: &[Event],
    logs: &[SeatLog],
    walks: &mut [Walk],
    xpt: &mut Xpt,
) -> Result<Ending, usize>
    requires same { length walks.old ≡ length logs.now }
    requires fresh { IsOf script.now xpt.old × (xpt.old.events ≡ []) }
    requires rising { AreRising logs.now }
    requires placed { ArePlaced logs.now events.now }
    requires start { AreOn script.now logs.now [] walks.old }
    ensures followed { IfOk result (IsFollowed script.now events.now logs.now) }
    ensures failed { IfErr result (λ place. IsStop script.now events.now logs.now place) }
{
    pass(script, events, logs, walks, xpt)?;
    // They are legal by the script's limits.
    let _events = xpt.events();
    match ending(script, logs, walks, xpt) {
        Some(stated) => Ok(stated),
        None => Err(events.len().saturating_sub(1)),
    }
}

/// How the run ended, by its ticks and by what its drivers did; or the place at which the run doesn't fit its script.
pub(crate) fn follow(
    alloc: Global,
    script: &Script,
    events: &[Event],
    logs: &[SeatLog],
) -> Result<Result<Ending, usize>, AllocError>
    requires rising { AreRising logs.now }
    requires placed { ArePlaced logs.now events.now }
    ensures followed { IfOk result (λ followed. IfOk followed (IsFollowed script.now events.now logs.now)) }
    ensures failed { IfOk result (λ followed. IfErr followed (λ place. IsStop script.now events.now logs.now place)) }
{
    let mut xpt = Xpt::open(alloc, script.config().copy(alloc)?, script.limits())?;
    let mut walks = start(alloc, logs.len())?;
    Ok(follow_all(script, events, logs, &mut walks, &mut xpt))
}

// The walks of that many actors that have done nothing.
fn start(alloc: Global, count: usize) -> Result<Vec<Walk>, AllocError>
    ensures { IfOk result (λ walks. walks.items ≡ replicate count (record { row = 0; made = 0; refused = false })) }
{
    Vec::from_elem(alloc, Walk::START, count)
}
