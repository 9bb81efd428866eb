//! A run on one thread, turn by turn.

ghost use Rattle.std.specs.Prelude.{◌≡◌, ℕ, List, map, replicate, ◌<◌, ◌≤◌, ◌+◌, ◌++◌, [], ◌∷◌, true, false, not, length, get_or, slice_get, take, All, IfOk, IfNone, IfSome, Some, None, IsTrue};
ghost use Rattle.std.specs.List.{list_all};
ghost use Rattle.sim_worker.specs.Endings.{IsEnding};
ghost use Rattle.sim_worker.specs.SimRuns.{IsSimRun};
ghost use Rattle.std.specs.Option.{option_map};
ghost use Rattle.sim_worker.specs.Words.{round, Event};
ghost use Rattle.sim_worker.specs.Work.{Work, AreBehindPauses, AreDriversDone, AreFresh, HasDone, IsAtEnd, IsToSend, actor_at, call_of, decision_of, is_able, is_full, left, steps_of, Lane, Driver};
ghost use Rattle.sim_worker.specs.declared.actor.Actor.TheVariants as actors;

use crate::actor::Actor;
use crate::ending::Ending;
use crate::port::Port;
use crate::script_port::ScriptPort;
use crate::seeded::SimRun;
use crate::work::{Driver, Hand, Lane};
use event_rules::{Event, Refusal};
use rand_core::Rng;
use rand_pcg::Lcg64Xsh32;
use std::alloc::{AllocError, Global};
use std::marker::Model;
use trace_file::{DRIVERS, Script, Step};
use xpt_state::{Case, Sent, Xpt};

/// A run of a script on one thread, and how far it is.
#[derive(Drop)]
pub(crate) struct Sim<'s> {
    pub(crate) script: &'s Script,
    pub(crate) xpt: Xpt,
    pub(crate) drivers: Vec<Driver>,
    pub(crate) lanes: Vec<Lane>,
    /// Whether recovery's decision was refused in this round.
    pub(crate) refused: bool,
}

impl<'s> Model for Sim<'s> {
    ghost use Rattle.sim_worker.specs.Work.{Work, IsWork};

    ghost Value = { Work };

    ghost view = { λ s. record { script = s.script.now; transport = s.xpt; drivers = s.drivers.items; lanes = s.lanes.items; refused = s.refused } };

    ghost invariant = { λ s. IsWork (record { script = s.script.now; transport = s.xpt; drivers = s.drivers.items; lanes = s.lanes.items; refused = s.refused }) };
}

impl<'s> Sim<'s> {
    /// The run before its first turn.
    pub(crate) fn open(alloc: Global, script: &'s Script) -> Result<Sim<'s>, AllocError>
        ensures { IfOk result (λ s. s.script ≡ script.now) }
    {
        let config = script.config().copy(alloc)?;
        let limits = script.limits();
        // There is at least one round.
        let _rounds = limits.rounds();
        let _drivers = script.drivers();
        Ok(Sim {
            script,
            xpt: Xpt::open(alloc, config, limits)?,
            drivers: first_drivers(alloc)?,
            lanes: first_lanes(alloc, script)?,
            refused: false,
        })
    }

    /// One turn: the next word of the generator picks who acts, of those who are able; the round keeper does, if no one
    /// is. An ending, if the run is over.
    pub(crate) fn turn(
        &mut self,
        random: &mut Lcg64Xsh32,
        able: &mut Vec<Actor>,
    ) -> Result<Option<Ending>, AllocError>
        ensures same { self.new.script ≡ self.old.script }
        ensures ending { IfOk result (λ over. IfSome over (IsEnding self.new.script self.new.transport.events)) }
        ensures less { IfOk result (λ over. IfNone over (left self.new < left self.old)) }
    {
        self.list_able(able)?;
        if able.is_empty() {
            return Ok(self.keep());
        }
        let place = random.next_u32() as usize % able.len();
        self.act(able[place])
    }

    // One call of an actor that is able. An ending, if the history is full.
    fn act(&mut self, actor: Actor) -> Result<Option<Ending>, AllocError>
        requires { is_able self.old actor ≡ true }
        ensures same { self.new.script ≡ self.old.script }
        ensures ending { IfOk result (λ over. IfSome over (IsEnding self.new.script self.new.transport.events)) }
        ensures less { IfOk result (λ over. IfNone over (left self.new < left self.old)) }
    {
        match actor {
            Actor::Driver(d) => Ok(self.call(d)),
            Actor::Lane(lane) => self.serve(lane),
            Actor::Recovery => Ok(self.decide()),
        }
    }

    // The driver makes the call of its next row.
    fn call(&mut self, d: usize) -> Option<Ending>
        requires { is_able self.old (actors.Driver d) ≡ true }
        ensures same { self.new.script ≡ self.old.script }
        ensures ending { IfSome result (IsEnding self.new.script self.new.transport.events) }
        ensures less { IfNone result (left self.new < left self.old) }
    {
        let Some(event) = self.next_call(d, self.drivers[d].done) else {
            unreachable!()
        };
        match self.xpt.take(event) {
            Ok(_) => self.drivers[d].done += 1,
            Err(Refusal::HistoryFull(_)) => return Some(Ending::HistoryFull),
            Err(_) => self.drivers[d].refused = true,
        }
        None
    }

    // The lane completes what it has in hand, or sends the next command and serves it.
    fn serve(&mut self, lane: usize) -> Result<Option<Ending>, AllocError>
        requires { is_able self.old (actors.Lane lane) ≡ true }
        ensures same { self.new.script ≡ self.old.script }
        ensures ending { IfOk result (λ over. IfSome over (IsEnding self.new.script self.new.transport.events)) }
        ensures less { IfOk result (λ over. IfNone over (left self.new < left self.old)) }
    {
        match self.lanes[lane].hand {
            Some(hand) => Ok(self.complete(lane, hand)),
            None => {
                self.lanes[lane].port.make_room()?;
                Ok(self.send(lane))
            }
        }
    }

    fn complete(&mut self, lane: usize, hand: Hand) -> Option<Ending>
        requires { option_map (λ (w : Lane). w.hand) (slice_get self.old.lanes lane) ≡ Some (Some hand) }
        ensures same { self.new.script ≡ self.old.script }
        ensures ending { IfSome result (IsEnding self.new.script self.new.transport.events) }
        ensures less { IfNone result (left self.new < left self.old) }
    {
        if self.xpt.done(hand.ccb, hand.outcome).is_err() {
            return Some(Ending::HistoryFull);
        }
        self.lanes[lane].hand = None;
        None
    }

    fn send(&mut self, lane: usize) -> Option<Ending>
        requires { IsToSend self.old lane }
        ensures same { self.new.script ≡ self.old.script }
        ensures ending { IfSome result (IsEnding self.new.script self.new.transport.events) }
        ensures less { IfNone result (left self.new < left self.old) }
    {
        let Ok(sent) = self.xpt.send_next(self.lanes[lane].number) else {
            return Some(Ending::HistoryFull);
        };
        let Sent::Command(command) = sent else {
            unreachable!()
        };
        let worker = &mut self.lanes[lane];
        worker.hand = Some(Hand {
            ccb: command.ccb,
            outcome: worker.port.serve(&command),
        });
        None
    }

    // Recovery makes the decision that the first case asks for.
    fn decide(&mut self) -> Option<Ending>
        requires { is_able self.old actors.Recovery ≡ true }
        ensures same { self.new.script ≡ self.old.script }
        ensures ending { IfSome result (IsEnding self.new.script self.new.transport.events) }
        ensures less { IfNone result (left self.new < left self.old) }
    {
        let Some(case) = self.xpt.next_case() else {
            unreachable!()
        };
        if let Err(why) = self.xpt.take(decision(case)) {
            if is_full(&why) {
                return Some(Ending::HistoryFull);
            }
            self.refused = true;
        }
        None
    }

    // The round keeper's part, where no one is able to act: the run is drained, or the next round opens, or a limit ends
    // the run.
    fn keep(&mut self) -> Option<Ending>
        requires rest { (i : ℕ) → i < 9 + length self.old.lanes → is_able self.old (actor_at (length self.old.lanes) i) ≡ false }
        requires behind { AreBehindPauses self.old }
        ensures same { self.new.script ≡ self.old.script }
        ensures ending { IfSome result (IsEnding self.new.script self.new.transport.events) }
        ensures less { IfNone result (left self.new < left self.old) }
    {
        if self.is_drained() {
            return Some(Ending::Drained);
        }
        if let Err(why) = self.xpt.tick() {
            if is_full(&why) {
                return Some(Ending::HistoryFull);
            }
            return Some(Ending::RoundsFull);
        }
        self.refused = false;
        renew(&mut self.drivers);
        None
    }

    // Whether each driver has done its rows, no case is left and no stay waits.
    fn is_drained(&self) -> bool
        ensures done { result ≡ true → IsAtEnd self.now }
        ensures left { result ≡ false → IsAtEnd self.now → ⊥ }
    {
        self.xpt.next_case().is_none() && self.xpt.look().waiting == 0 && self.are_drivers_done()
    }

    fn are_drivers_done(&self) -> bool
        ensures done { result ≡ true → AreDriversDone self.now }
        ensures left { result ≡ false → AreDriversDone self.now → ⊥ }
    {
        for d in 0..DRIVERS {
            if self.drivers[d].done < self.script.drivers()[d].len() {
                return false;
            }
        }
        true
    }

    /// The run by this seed, of which this is the ending.
    pub(crate) fn into_run(
        self,
        alloc: Global,
        ending: Ending,
        seed: u64,
    ) -> Result<SimRun, AllocError>
        requires { IsEnding self.script self.transport.events ending }
        ensures run { IfOk result (λ run. IsSimRun self.entry.script run.history run.ending) }
        ensures seed { IfOk result (λ run. run.seed ≡ seed) }
    {
        let Sim {
            script: _,
            xpt,
            drivers: _,
            lanes: _,
            refused: _,
        } = self;
        Ok(SimRun {
            history: xpt.into_history(alloc)?,
            ending,
            seed,
        })
    }
}

// In a new round a driver whose row was refused may try again.
fn renew(drivers: &mut [Driver])
    ensures done { map (λ (w : Driver). w.done) drivers.new ≡ map (λ (w : Driver). w.done) drivers.old }
    ensures len { length drivers.new ≡ length drivers.old }
{
    for driver in drivers {
        driver.refused = false;
    }
}

// Whether the refusal says that the history is full.
fn is_full(why: &Refusal) -> bool
    ensures { result ≡ is_full why.now }
{
    matches!(why, Refusal::HistoryFull(_))
}

// The decision that the case's class asks for.
fn decision(case: Case) -> Event
    ensures { result ≡ decision_of case }
{
    if case.class.asks_requeue() {
        Event::Requeue { ccb: case.ccb }
    } else {
        Event::Finish { ccb: case.ccb }
    }
}

// Eight drivers that have done nothing.
fn first_drivers(alloc: Global) -> Result<Vec<Driver>, AllocError>
    ensures { IfOk result (λ drivers. drivers.items ≡ replicate 8 (record { done = 0; refused = false })) }
{
    let mut drivers = Vec::with_capacity(alloc, DRIVERS)?;
    for _ in 0..DRIVERS {
        drivers.push(Driver {
            done: 0,
            refused: false,
        })?;
    }
    Ok(drivers)
}

// The script's lanes, with nothing in hand.
fn first_lanes(alloc: Global, script: &Script) -> Result<Vec<Lane>, AllocError>
    ensures len { IfOk result (λ lanes. length lanes.items ≡ length script.now.config.lanes) }
    ensures fresh { IfOk result (λ lanes. AreFresh script.now lanes.items) }
{
    let count = script.config().lanes().len();
    let mut lanes = Vec::with_capacity(alloc, count)?;
    for at in 0..count {
        let number = at as u32;
        let port = ScriptPort::new(alloc, script, number)?;
        lanes.push(Lane {
            number,
            port,
            hand: None,
        })?;
    }
    Ok(lanes)
}
