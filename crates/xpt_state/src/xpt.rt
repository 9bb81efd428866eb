//! The transport's calls.

ghost use Rattle.std.specs.Prelude.{◌≡◌, ◌≤◌, [], length, None, IsTrue, IfOk, MatchResult};
ghost use Rattle.event_rules.specs.Legal.{history_rules, is_legal};
ghost use Rattle.xpt_state.specs.declared.reply.Reply.TheVariants as replies;

use crate::answers::{command, done_of, heads, next_command, nth_case};
use crate::done::Done;
use crate::look::{Case, Look};
use crate::questions::has_head;
use crate::refusals::lane_refusal;
use crate::reply::{Reply, Sent};
use cam_event::History;
use cam_types::{Command, Config, Flags, Limits, Outcome};
use event_rules::{Event, Refusal, Rules};
use std::alloc::{AllocError, Global};
use std::marker::Model;
use xpt_core::State;

/// A transport on one thread: a configuration, how far it goes, and the events so far, each legal at its place. Nothing
/// grows after `open`.
///
/// CCBs, devices, adapters and lanes are numbered from 0, rounds from 1. A call that is refused names the first cause
/// that holds, in the order in which its documentation lists them, and changes nothing.
#[derive(Drop)]
pub struct Xpt {
    state: State,
}

impl Model for Xpt {
    ghost use Rattle.xpt_core.specs.Transport.{Transport};

    ghost Value = { Transport };

    ghost view = { λ x. x.state };
}

impl Xpt {
    ghost use Rattle.cam_types.specs.declared.limits.TheConstants.{MAX_EVENTS};
    ghost use Rattle.event_rules.specs.Counts.{round};
    ghost use Rattle.event_rules.specs.Legal.{history_rules, rules_of, is_legal};
    ghost use Rattle.xpt_core.specs.Takes.{refused, with_event, IsTaken, IsRefused};
    ghost use Rattle.xpt_state.specs.Calls.{lane_refused};
    ghost use Rattle.xpt_state.specs.Looks.{look, has_head, next_case, nth_case};
    ghost use Rattle.xpt_state.specs.Replies.{nothing};
    ghost use Rattle.xpt_state.specs.Steps.{IsStep, IsLaneStep, IsSent};

    /// A transport to which nothing has happened, in round 1, with memory for all that the limits let happen. All
    /// growth is here; it fails only if there is no memory.
    pub fn open(alloc: Global, config: Config, limits: Limits) -> Result<Xpt, AllocError>
        ensures { IfOk result (λ x. x ≡ record { config = config; rules = rules_of limits; events = [] }) }
    {
        Xpt::by(alloc, config, Rules::of(limits))
    }

    /// The same by rules instead of limits. By those of a history it takes the events of every history, however many CCBs
    /// are alive.
    pub fn by(alloc: Global, config: Config, rules: Rules) -> Result<Xpt, AllocError>
        ensures { IfOk result (λ x. x ≡ record { config = config; rules = rules; events = [] }) }
    {
        Ok(Xpt {
            state: State::open(alloc, config, rules)?,
        })
    }

    /// The working state: the queues of devices and adapters, the CCBs and the stays, to look at.
    pub fn state(&self) -> &State
        ensures { result.now ≡ self.now }
    {
        &self.state
    }

    /// The configuration.
    pub fn config(&self) -> &Config
        ensures { result.now ≡ self.now.config }
    {
        self.state.config()
    }

    /// How far the transport goes: the CCBs alive at once, the rounds, the stays and the events.
    pub fn rules(&self) -> Rules
        ensures { result ≡ self.now.rules }
    {
        self.state.rules()
    }

    /// The events so far, in order: each is legal at its place.
    pub fn events(&self) -> &[Event]
        ensures same { result.now ≡ self.now.events }
        ensures legal { IsTrue (is_legal self.now.rules self.now.config self.now.events) }
        ensures short { length result.now ≤ MAX_EVENTS }
    {
        self.state.events()
    }

    /// The round, the first of which is 1.
    pub fn round(&self) -> u32
        ensures { result ≡ round self.now.events }
    {
        self.state.devices().round()
    }

    /// Why the event would be refused now: the first cause that holds. None if `take` would accept it.
    pub fn refusal(&self, event: &Event) -> Option<Refusal>
        ensures { result ≡ refused self.now event.now }
    {
        self.state.refusal(event)
    }

    /// Takes an event of any kind and answers what the call of that kind does, with the refusals of that call.
    ///
    /// A send of a CCB by a lane is refused with the first of `HistoryFull`, `NoLane`, `NoCcb`, `NotQueued`,
    /// `WrongLane`, `DeviceFrozen`, `AdapterFrozen`, `NoOpening` and `NotHead`: only what `send_next` would send is
    /// sent. If the event is refused, nothing changes.
    pub fn take(&mut self, event: Event) -> Result<Reply, Refusal>
        ensures { IsStep (λ reply. reply) self.old event self.new result }
    {
        match event {
            Event::Submit {
                driver,
                device,
                priority,
                retries,
                flags,
            } => Ok(Reply::Ccb(self.submit(driver, device, priority, retries, flags)?)),
            Event::Send { lane, ccb } => Ok(Reply::Command(self.send(lane, ccb)?)),
            Event::Done { ccb, outcome } => Ok(Reply::Done(self.done(ccb, outcome)?)),
            Event::Tick => Ok(Reply::Round(self.tick()?)),
            _ => {
                self.state.take(event)?;
                Ok(Reply::Nothing)
            }
        }
    }

    /// Submits a CCB of the driver to the device: it gets the next number, which is the answer, and its first stay
    /// begins in this round. A priority is 0 to 1279, the smaller number the more urgent; retries are 0 to 7, and the
    /// driver's number is any byte.
    ///
    /// Refused with the first of `HistoryFull`, `NoDevice`, `BadPriority`, `BadRetries`, `CcbFull` and `StaysFull`;
    /// then nothing changes.
    pub fn submit(
        &mut self,
        driver: u8,
        device: u32,
        priority: u32,
        retries: u32,
        flags: Flags,
    ) -> Result<u32, Refusal>
        ensures { IsStep replies.Ccb self.old (Event.Submit driver device priority retries flags) self.new result }
    {
        let number = self.state.devices().commands();
        self.state.take(Event::Submit {
            driver,
            device,
            priority,
            retries,
            flags,
        })?;
        Ok(number)
    }

    // Sends the CCB by the lane, if it is its turn there.
    fn send(&mut self, lane: u32, ccb: u32) -> Result<Command, Refusal>
        ensures { IsStep replies.Command self.old (Event.Send lane ccb) self.new result }
    {
        let event = Event::Send { lane, ccb };
        if let Some(why) = self.refusal(&event) {
            return Err(why);
        }
        let command = command(&self.state, lane, ccb);
        self.state.add(event);
        Ok(command)
    }

    /// The command that was sent as this CCB has completed, with this result: its CAM status (the lower six bits) isn't
    /// 00. Status 01 ends the CCB. Any other is a failure: the CCB waits for `requeue` or `finish`, as the class in the
    /// answer asks. Until then its device has one freeze more, unless the CCB's flags have `qfrzdis`. The opening isn't
    /// given back before the next round.
    ///
    /// Refused with the first of `HistoryFull`, `NoCcb`, `BadStatus` and `NotInFlight`; then nothing changes.
    pub fn done(&mut self, ccb: u32, outcome: Outcome) -> Result<Done, Refusal>
        ensures { IsStep replies.Done self.old (Event.Done ccb outcome) self.new result }
    {
        let event = Event::Done { ccb, outcome };
        if let Some(why) = self.refusal(&event) {
            return Err(why);
        }
        let done = done_of(&self.state, ccb, &outcome);
        self.state.add(event);
        Ok(done)
    }

    /// Puts a CCB that failed back into its device's queue, from the next round on, where it stands before what is
    /// submitted in that round at its priority. The freeze that its failure made ends.
    ///
    /// Refused with the first of `HistoryFull`, `NoCcb`, `StaysFull`, `NotRecovering` and `WrongDecision` (its class
    /// asks for `finish`); then nothing changes.
    pub fn requeue(&mut self, ccb: u32) -> Result<(), Refusal>
        ensures { IsStep nothing self.old (Event.Requeue ccb) self.new result }
    {
        self.state.take(Event::Requeue { ccb })
    }

    /// Gives a CCB that failed back to its driver, which ends it. The freeze that its failure made ends too.
    ///
    /// Refused with the first of `HistoryFull`, `NoCcb`, `NotRecovering` and `WrongDecision` (its class asks for
    /// `requeue`); then nothing changes.
    pub fn finish(&mut self, ccb: u32) -> Result<(), Refusal>
        ensures { IsStep nothing self.old (Event.Finish ccb) self.new result }
    {
        self.state.take(Event::Finish { ccb })
    }

    /// Freezes the device's queue that many times, 1 to 65,535. Commands in flight are left alone. The freezes by
    /// callers, with those of sends with `qfreeze`, are at most 65,535 at a time.
    ///
    /// Refused with the first of `HistoryFull`, `NoDevice`, `BadCount` and `FreezeOverflow`; then nothing changes.
    pub fn freeze_dev(&mut self, device: u32, count: u32) -> Result<(), Refusal>
        ensures { IsStep nothing self.old (Event.FreezeDev device count) self.new result }
    {
        self.state.take(Event::FreezeDev { device, count })
    }

    /// Takes that many freezes of the device away, 1 to 65,535, of those that `freeze_dev` and sends with `qfreeze` made.
    /// The freezes by failures stay: `requeue` or `finish` of the CCB that failed ends one of these.
    ///
    /// Refused with the first of `HistoryFull`, `NoDevice`, `BadCount` and `ReleaseTooMany`; then nothing changes.
    pub fn release_dev(&mut self, device: u32, count: u32) -> Result<(), Refusal>
        ensures { IsStep nothing self.old (Event.ReleaseDev device count) self.new result }
    {
        self.state.take(Event::ReleaseDev { device, count })
    }

    /// Freezes the adapter that many times, 1 to 65,535. Commands in flight are left alone. The freezes of an adapter are
    /// at most 65,535 at a time.
    ///
    /// Refused with the first of `HistoryFull`, `NoAdapter`, `BadCount` and `FreezeOverflow`; then nothing changes.
    pub fn freeze_sim(&mut self, sim: u32, count: u32) -> Result<(), Refusal>
        ensures { IsStep nothing self.old (Event.FreezeSim sim count) self.new result }
    {
        self.state.take(Event::FreezeSim { sim, count })
    }

    /// Takes one freeze of the adapter away.
    ///
    /// Refused with the first of `HistoryFull`, `NoAdapter` and `ReleaseTooMany`; then nothing changes.
    pub fn release_sim(&mut self, sim: u32) -> Result<(), Refusal>
        ensures { IsStep nothing self.old (Event.ReleaseSim sim) self.new result }
    {
        self.state.take(Event::ReleaseSim { sim })
    }

    /// Gives the device that many openings, 1 to 255, from the next round on. This round keeps the openings that it has.
    ///
    /// Refused with the first of `HistoryFull`, `NoDevice` and `BadOpenings`; then nothing changes.
    pub fn adjust(&mut self, device: u32, openings: u32) -> Result<(), Refusal>
        ensures { IsStep nothing self.old (Event.Adjust device openings) self.new result }
    {
        self.state.take(Event::Adjust { device, openings })
    }

    /// Opens the next round, which is the answer: all openings come back, adjusted ones at their new number, and what
    /// was requeued enters its queue. Freezes stay.
    ///
    /// Refused with the first of `HistoryFull`, `InFlight` and `RoundsFull`; then nothing changes.
    pub fn tick(&mut self) -> Result<u32, Refusal>
        ensures { IsStep replies.Round self.old Event.Tick self.new result }
    {
        self.state.take(Event::Tick)?;
        Ok(self.state.devices().round())
    }

    /// Whether the lane's adapter has something to send; a lane that isn't there has nothing.
    pub fn has_head(&self, lane: u32) -> bool
        ensures { result ≡ has_head self.now.config self.now.events lane }
    {
        match self.state.config().lane_adapter(lane) {
            Some(adapter) => has_head(&self.state, adapter),
            None => false,
        }
    }

    /// Sends the next command of the lane's adapter: the first stay of its head. It uses an opening of the device and
    /// one of the adapter for the whole round. If nothing can be sent, the lane is idle, and the answer says why by the
    /// first of `Empty`, `AdapterFrozen`, `AdapterBusy` and `DevicesHeld`; then nothing changes.
    ///
    /// Refused with the first of `HistoryFull` and `NoLane`; then nothing changes either.
    pub fn send_next(&mut self, lane: u32) -> Result<Sent, Refusal>
        ensures { IsLaneStep self.old lane self.new result }
    {
        if let Some(why) = lane_refusal(&self.state, lane) {
            return Err(why);
        }
        Ok(self.take_turn(lane))
    }

    // Sends the next command of the adapter of a lane that isn't refused, or says why there is none.
    fn take_turn(&mut self, lane: u32) -> Sent
        requires { lane_refused self.old lane ≡ None }
        ensures { IsSent self.old lane self.new result }
    {
        match next_command(&self.state, lane) {
            Ok(ccb) => {
                let command = command(&self.state, lane, ccb);
                self.state.add(Event::Send { lane, ccb });
                Sent::Command(command)
            }
            Err(why) => Sent::Idle(why),
        }
    }

    /// Of the CCBs that wait for a decision on their error, the one that completed first, and its class. None if none
    /// waits.
    pub fn next_case(&self) -> Option<Case>
        ensures { result ≡ next_case self.now.events }
    {
        nth_case(&self.state, 0)
    }

    /// Of the CCBs that wait for a decision, the one that completed with this many before it, and its class. None if no
    /// more wait.
    pub fn nth_case(&self, number: usize) -> Option<Case>
        ensures { result ≡ nth_case self.now.events number }
    {
        nth_case(&self.state, number)
    }

    /// What there is to see, all in counts. It changes nothing.
    pub fn look(&self) -> Look
        ensures { result ≡ look self.now.config self.now.events }
    {
        let devices = self.state.devices();
        Look {
            length: devices.events().len() as u32,
            round: devices.round(),
            in_flight: self.state.in_flight_count(),
            heads: heads(&self.state),
            cases: self.state.case_count(),
            waiting: devices.waiting_count(),
        }
    }

    /// The history of the events, which are legal in it too. It takes memory of its own, and the time of all events anew,
    /// but where the rules are those of a history already; if there is no memory, the transport is gone.
    pub fn into_history(self, alloc: Global) -> Result<History, AllocError>
        ensures { IfOk result (λ h. h ≡ record { config = self.config; events = self.events }) }
    {
        if self.rules() == Rules::of_history() {
            let Xpt { state } = self;
            return History::of(alloc, state);
        }
        let (config, events) = self.into_parts();
        history_of(alloc, config, &events)
    }

    /// The configuration and the events, which are legal in a history.
    pub fn into_parts(self) -> (Config, Vec<Event>)
        ensures config { result.0 ≡ self.config }
        ensures events { result.1.items ≡ self.events }
        ensures legal { IsTrue (is_legal history_rules self.config self.events) }
    {
        let Xpt { state } = self;
        state.into_parts()
    }
}

// The history of events that are legal in it.
fn history_of(alloc: Global, config: Config, events: &[Event]) -> Result<History, AllocError>
    requires { IsTrue (is_legal history_rules config events.now) }
    ensures { IfOk result (λ h. h ≡ record { config = config; events = events.now }) }
{
    let mut history = History::new(alloc, config)?;
    for event in events {
        history.push(*event).unwrap();
    }
    Ok(history)
}
