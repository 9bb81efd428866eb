//! Histories: the events of one configuration, each legal at its place.

ghost use Rattle.std.specs.Prelude.{◌≡◌, ◌≤◌, [], ◌∷◌, ◌++◌, length, IsTrue, IfOk, OnOk, OnErr, MatchOption, Ok, Err};
ghost use Rattle.cam_event.specs.declared.history.PushFault.TheVariants.{Refused};

use cam_types::Config;
use event_rules::{Event, Refusal, Rules, Stay};
use std::alloc::{AllocError, Global};
use std::marker::Model;
use thiserror::Error;
use xpt_core::{State, StayRecord};

/// Why an event wasn't put after those of a history, which is as it was.
#[derive(Clone, Copy, Debug, PartialEq, Eq, Error)]
pub enum PushFault {
    /// The event is refused by this cause, the first that holds.
    #[error("{0}")]
    Refused(Refusal),
    /// There is no memory left. `push` never answers this: `new` takes the memory of all events that may come.
    #[error("out of memory")]
    OutOfMemory,
}

/// The events of one configuration so far, each legal at its place. Nothing grows after `new`.
#[derive(Drop)]
pub struct History {
    // In a box, so that a history is moved by its address: a reader of traces moves its own at each record.
    state: Box<State>,
}

impl Model for History {
    ghost use Rattle.std.specs.Prelude.{◌≡◌};
    ghost use Rattle.event_rules.specs.Legal.{history_rules};
    ghost use Rattle.event_rules.specs.Past.{Past};

    ghost Value = { Past };

    ghost view = { λ h. record { config = h.state.value.config; events = h.state.value.events } };

    ghost invariant = { λ h. h.state.value.rules ≡ history_rules };
}

impl History {
    ghost use Rattle.cam_types.specs.declared.limits.TheConstants.{MAX_ROUNDS, MAX_STAYS, MAX_EVENTS};
    ghost use Rattle.event_rules.specs.Counts.{round, commands};
    ghost use Rattle.event_rules.specs.Stays.{stays_begun, unsent};
    ghost use Rattle.event_rules.specs.Live.{live_cost};
    ghost use Rattle.event_rules.specs.Legal.{history_rules, is_legal, is_legal_event};
    ghost use Rattle.event_rules.specs.Refusals.{refusal};
    ghost use Rattle.xpt_core.specs.Records.{records};
    ghost use Rattle.cam_event.specs.Turns.{next_ccb};

    /// A history without events, with memory for all that may come.
    pub fn new(alloc: Global, config: Config) -> Result<History, AllocError>
        ensures { IfOk result (λ h. h ≡ record { config = config; events = [] }) }
    {
        History::of(alloc, State::open(alloc, config, Rules::of_history())?)
    }

    /// The history of a transport's working state whose rules are those of a history.
    pub fn of(alloc: Global, state: State) -> Result<History, AllocError>
        requires { state.rules ≡ history_rules }
        ensures { IfOk result (λ h. h ≡ record { config = state.config; events = state.events }) }
    {
        Ok(History {
            state: Box::new(alloc, state)?,
        })
    }

    /// Puts a legal event after the others. Otherwise it is refused by the first cause that holds, and the history is as
    /// it was.
    pub fn push(&mut self, event: Event) -> Result<(), PushFault>
        ensures answer { MatchOption (refusal history_rules self.old.config self.old.events event)
            (result ≡ Ok tt)
            (λ r. result ≡ Err (Refused r)) }
        ensures legal { OnOk result (IsTrue (is_legal_event history_rules self.old.config (self.old.events, event))) }
        ensures ok { OnOk result (self.new ≡ record self.old { events = self.old.events ++ event ∷ [] }) }
        ensures err { OnErr result (self.new ≡ self.old) }
    {
        if let Err(why) = self.state.take(event) {
            return Err(PushFault::Refused(why));
        }
        Ok(())
    }

    /// The configuration.
    pub fn config(&self) -> &Config
        ensures { result.now ≡ self.now.config }
    {
        self.state.config()
    }

    /// The events, in order.
    pub fn events(&self) -> &[Event]
        ensures same { result.now ≡ self.now.events }
        ensures legal { IsTrue (is_legal history_rules self.now.config self.now.events) }
        ensures short { length result.now ≤ MAX_EVENTS }
    {
        self.state.events()
    }

    /// The last round so far, from 1 to 512.
    #[tactic(auto, using(event_rules::proofs::LimitLemmas::round_first, event_rules::proofs::LimitLemmas::round_most))]
    pub fn round(&self) -> u32
        ensures same { result ≡ round self.now.events }
        ensures first { 1 ≤ result }
        ensures most { result ≤ MAX_ROUNDS }
    {
        let _events = self.events();
        self.state.devices().round()
    }

    /// How many CCBs were submitted.
    pub fn commands(&self) -> u32
        ensures { result ≡ commands self.now.events }
    {
        self.state.devices().commands()
    }

    /// How many stays began, at most 4,096.
    #[tactic(auto, using(event_rules::proofs::LimitLemmas::stays_most))]
    pub fn stay_count(&self) -> u32
        ensures same { result ≡ length (stays_begun self.now.events) }
        ensures most { result ≤ MAX_STAYS }
    {
        let _events = self.events();
        self.state.devices().stay_count()
    }

    /// All stays with their sends, in creation order.
    pub fn stays(&self) -> &[StayRecord]
        ensures { result.now ≡ records self.now.events }
    {
        self.state.records()
    }

    /// The first stay in creation order that has no send.
    pub fn unsent(&self) -> Option<Stay>
        ensures { result ≡ unsent self.now.events }
    {
        self.state.unsent()
    }

    /// What the waiting of all stays cost, in rounds by weight, where each of them was sent.
    pub fn live_cost(&self) -> Option<u64>
        ensures { result ≡ live_cost self.now.config self.now.events }
    {
        self.state.live_cost()
    }

    /// The CCB that the lane would send next. None if there is no such lane, or its adapter has nothing to send.
    pub fn next_ccb(&self, lane: u32) -> Option<u32>
        ensures { result ≡ next_ccb self.now.config self.now.events lane }
    {
        let adapter = self.state.config().lane_adapter(lane)?;
        let next = self.state.queues().next(adapter)?;
        Some(next.ccb)
    }
}
