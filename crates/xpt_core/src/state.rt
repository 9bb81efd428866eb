//! The working state of a transport: its parts beside each other.

ghost use Rattle.std.specs.Prelude.{◌≡◌, ◌≤◌, nat_le, [], ◌∷◌, ◌++◌, length, None, IsTrue, IfOk, MatchResult};
ghost use Rattle.xpt_core.specs.Words.{MAX_EVENTS, HistoryFull, first_cause};

use crate::ccbs::Ccbs;
use crate::devices::Devices;
use crate::queues::Queues;
use crate::refusals::{full_refusal, refusal};
use crate::stays::Stays;
use cam_types::Config;
use event_rules::{Event, Refusal, Rules};
use std::alloc::{AllocError, Global};
use std::marker::Model;

/// A configuration, how far its events may go, and the events so far, each legal at its place; and what they come to: the
/// queues of devices and adapters, the CCBs, and the stays. Nothing grows after `open`.
pub struct State {
    pub(crate) queues: Queues,
    pub(crate) ccbs: Ccbs,
    pub(crate) stays: Stays,
}

// By hand, so that to its owners a state that ends is one call and not each of its fields.
impl Drop for State {
    fn drop(self) {
        let State {
            queues: _,
            ccbs: _,
            stays: _,
        } = self;
    }
}

impl Model for State {
    ghost use Rattle.xpt_core.specs.Transport.{Transport};
    ghost use Rattle.xpt_core.specs.StateSound.{IsState};

    ghost Value = { Transport };

    ghost view = { λ k. k.queues };

    ghost invariant = { IsState };
}

impl State {
    ghost use Rattle.event_rules.specs.Legal.{history_rules, is_legal, is_legal_event};
    ghost use Rattle.cam_types.specs.Questions.{lane_adapter};
    ghost use Rattle.cam_types.specs.Topology.{IsConfig};
    ghost use Rattle.xpt_core.specs.Takes.{refused, with_event, IsTaken, IsRefused};

    /// The state before any event, with memory for all that the rules let happen.
    pub fn open(alloc: Global, config: Config, rules: Rules) -> Result<State, AllocError>
        ensures { IfOk result (λ k. k ≡ record { config = config; rules = rules; events = [] }) }
    {
        let ccbs = Ccbs::open(alloc, rules)?;
        let stays = Stays::open(alloc, rules)?;
        let queues = Queues::open(alloc, config, rules)?;
        Ok(State {
            queues,
            ccbs,
            stays,
        })
    }

    /// Puts a legal event after the others. It takes time that grows with the number of devices on the adapter, with that of
    /// the cases, and with the logarithm of what waits at the device; a tick visits each device and adapter.
    pub(crate) fn append(&mut self, event: Event)
        requires legal { IsTrue (is_legal_event self.old.rules self.old.config (self.old.events, event)) }
        ensures { self.new ≡ record self.old { events = self.old.events ++ event ∷ [] } }
    {
        self.stays.update(&self.queues, &event);
        self.ccbs.update(&event);
        self.queues.append(event);
    }

    /// The queues, with the configuration, the rules and the events.
    pub fn queues(&self) -> &Queues
        ensures { result.now ≡ self.now }
    {
        &self.queues
    }

    /// The devices, with the configuration, the rules and the events.
    pub fn devices(&self) -> &Devices
        ensures { result.now ≡ self.now }
    {
        self.queues.devices()
    }

    /// The configuration.
    pub fn config(&self) -> &Config
        ensures { result.now ≡ self.now.config }
    {
        self.devices().config()
    }

    /// How far the events may go.
    pub fn rules(&self) -> Rules
        ensures { result ≡ self.now.rules }
    {
        self.devices().rules()
    }

    /// The events so far, in order: each is legal at its place.
    pub fn events(&self) -> &[Event]
        ensures same { result.now ≡ self.now.events }
        ensures legal { IsTrue (is_legal self.now.rules self.now.config self.now.events) }
        ensures short { length result.now ≤ MAX_EVENTS }
    {
        self.devices().events()
    }

    /// The lane's adapter, and 0 where there is no such lane.
    pub fn lane_adapter(&self, lane: u32) -> u32
        ensures same { result ≡ lane_adapter self.now.config lane }
        ensures kept { IsConfig self.now.config }
    {
        self.config().lane_adapter(lane).unwrap_or(0)
    }

    /// Why the event would be refused now: the first cause that holds. None if `take` would accept it.
    pub fn refusal(&self, event: &Event) -> Option<Refusal>
        ensures { result ≡ refused self.now event.now }
    {
        let _queues = &self.queues;
        refusal(self, event)
    }

    /// That there are as many events as there may be.
    pub fn full_refusal(&self) -> Option<Refusal>
        ensures { result ≡ first_cause ((nat_le self.now.rules.events (length self.now.events), HistoryFull (length self.now.events)) ∷ []) }
    {
        full_refusal(self)
    }

    /// Puts the event after the others, if it isn't refused; otherwise nothing changes.
    pub fn take(&mut self, event: Event) -> Result<(), Refusal>
        ensures { MatchResult result (λ _. IsTaken self.old event self.new) (λ why. IsRefused self.old event why self.new) }
    {
        if let Some(why) = self.refusal(&event) {
            return Err(why);
        }
        self.add(event);
        Ok(())
    }

    /// Puts an event that isn't refused after the others.
    pub fn add(&mut self, event: Event)
        requires { refused self.old event ≡ None }
        ensures { self.new ≡ with_event self.old event }
    {
        self.append(event);
    }

    /// The configuration and the events, which are legal in a history.
    pub fn into_parts(self) -> (Config, Vec<Event>)
        ensures config { result.0 ≡ self.config }
        ensures events { result.1.items ≡ self.events }
        ensures legal { IsTrue (is_legal history_rules self.config self.events) }
    {
        let State {
            queues,
            ccbs: _ccbs,
            stays: _stays,
        } = self;
        queues.into_parts()
    }
}
