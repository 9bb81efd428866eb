//! Who is able to act in a run on one thread.

ghost use Rattle.std.specs.Prelude.{◌≡◌, ◌≢◌, ℕ, List, ◌<◌, ◌≤◌, ◌+◌, [], true, false, length, slice_get, All, IfOk, Some};
ghost use Rattle.sim_worker.specs.Words.{round, Event};
ghost use Rattle.sim_worker.specs.Work.{Work, AreBehindPauses, HasDone, actor_at, call_of, calls_of, is_able, left, steps_of, Driver};
ghost use Rattle.trace_file.specs.declared.step.Step.TheVariants as step;
ghost use Rattle.sim_worker.specs.declared.actor.Actor.TheVariants as actors;

use crate::actor::Actor;
use crate::run_replay::is_held_up;
use crate::sim::Sim;
use event_rules::Event;
use std::alloc::AllocError;
use trace_file::{DRIVERS, Step};

impl<'s> Sim<'s> {
    /// Passes the pauses that are over, and lists who is able to act: drivers by number, lanes by number, recovery.
    pub(crate) fn list_able(&mut self, able: &mut Vec<Actor>) -> Result<(), AllocError>
        ensures same { (self.new.script ≡ self.old.script) × (left self.new ≡ left self.old) }
        ensures able { All (λ a. is_able self.new a ≡ true) able.new.items }
        ensures behind { IfOk result (λ _. AreBehindPauses self.new) }
        ensures none { IfOk result (λ _. able.new.items ≡ [] → (i : ℕ) → i < 9 + length self.new.lanes → is_able self.new (actor_at (length self.new.lanes) i) ≡ false) }
    {
        self.pass_pauses();
        able.clear();
        for i in 0..DRIVERS + self.lanes.len() + 1 {
            let actor = self.actor_at(i);
            if self.is_able(actor) {
                able.push(actor)?;
            }
        }
        Ok(())
    }

    // Passes, for each driver, the pauses that stand next and are over.
    fn pass_pauses(&mut self)
        ensures same { (self.new.script ≡ self.old.script) × (left self.new ≡ left self.old) }
        ensures lanes { length self.new.lanes ≡ length self.old.lanes }
        ensures behind { AreBehindPauses self.new }
    {
        let round = self.xpt.round();
        for d in 0..DRIVERS {
            self.pass_pauses_of(d, round);
        }
    }

    fn pass_pauses_of(&mut self, d: usize, now: u32)
        requires number { d < 8 }
        requires now { now ≡ round self.old.transport.events }
        ensures same { (self.new.script ≡ self.old.script) × (left self.new ≡ left self.old) × (self.new.transport ≡ self.old.transport) }
        ensures lanes { length self.new.lanes ≡ length self.old.lanes }
        ensures others { (k : ℕ) → k ≢ d → slice_get self.new.drivers k ≡ slice_get self.old.drivers k }
        ensures behind { (x : Driver) (r : ℕ) → slice_get self.new.drivers d ≡ Some x → slice_get (steps_of self.new.script d) x.done ≡ Some (step.Pause r) → now < r }
    {
        let done = behind_pauses(&self.script.drivers()[d], self.drivers[d].done, now);
        self.drivers[d].done = done;
    }

    // The actor of this place in their order.
    fn actor_at(&self, i: usize) -> Actor
        ensures { result ≡ actor_at (length self.now.lanes) i }
    {
        if i < DRIVERS {
            Actor::Driver(i)
        } else if i < DRIVERS + self.lanes.len() {
            Actor::Lane(i - DRIVERS)
        } else {
            Actor::Recovery
        }
    }

    // Whether the actor could act now.
    fn is_able(&self, actor: Actor) -> bool
        ensures { result ≡ is_able self.now actor }
    {
        match actor {
            Actor::Driver(d) => self.is_driver_able(d),
            Actor::Lane(lane) => self.is_lane_able(lane),
            Actor::Recovery => self.is_recovery_able(),
        }
    }

    fn is_driver_able(&self, d: usize) -> bool
        ensures { result ≡ is_able self.now (actors.Driver d) }
    {
        match self.drivers.get(d) {
            Some(driver) => !driver.refused && self.next_call(d, driver.done).is_some(),
            None => false,
        }
    }

    /// The event that the driver's row of this place calls for.
    pub(crate) fn next_call(&self, d: usize, done: usize) -> Option<Event>
        requires { d < 8 }
        ensures { result ≡ call_of (slice_get (steps_of self.now.script d) done) }
    {
        match self.script.drivers()[d].get(done) {
            Some(Step::Act(event)) => Some(*event),
            _ => None,
        }
    }

    fn is_lane_able(&self, lane: usize) -> bool
        ensures { result ≡ is_able self.now (actors.Lane lane) }
    {
        match self.lanes.get(lane) {
            Some(worker) => worker.hand.is_some() || self.xpt.has_head(worker.number),
            None => false,
        }
    }

    fn is_recovery_able(&self) -> bool
        ensures { result ≡ is_able self.now actors.Recovery }
    {
        match self.xpt.next_case() {
            Some(case) => !self.refused || !is_held_up(&self.xpt, case),
            None => false,
        }
    }
}

// After the pauses that stand from a place of the steps on and are over.
fn behind_pauses(steps: &[Step], from: usize, now: u32) -> usize
    ensures done { (d : ℕ) → (events : List Event) → now ≡ round events → HasDone steps.now d events from → HasDone steps.now d events result }
    ensures calls { calls_of steps.now result ≡ calls_of steps.now from }
    ensures next { (r : ℕ) → slice_get steps.now result ≡ Some (step.Pause r) → now < r }
{
    let mut done = from;
    while let Some(Step::Pause(round)) = steps.get(done) {
        if now < *round {
            break;
        }
        done += 1;
    }
    done
}
