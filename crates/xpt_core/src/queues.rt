//! The queues of a transport: those of its devices, and beside them what each adapter sends next.

ghost use Rattle.std.specs.Prelude.{◌≡◌, ◌<◌, ◌≤◌, ◌==◌, not, [], ◌∷◌, ◌++◌, length, count_by, IsTrue, IfOk};
ghost use Rattle.std.specs.Option.{option_map};
ghost use Rattle.cam_types.specs.declared.limits.TheConstants.{MAX_FREEZES};

mod affected;
pub mod next;
mod open;
mod refresh;
mod update;

use crate::devices::Devices;
use crate::queues::affected::affected_by;
use crate::queues::next::Next;
use crate::queues::open::open_queues;
use crate::queues::refresh::refresh;
use crate::queues::update::update;
use cam_types::Config;
use event_rules::{Event, Rules};
use sim_queue::SimQueue;
use std::alloc::{AllocError, Global};
use std::marker::Model;

/// The adapters of a transport over its devices: whose turn it is on each. Nothing grows after `open`.
#[derive(Drop)]
pub struct Queues {
    devices: Devices,
    sims: Vec<SimQueue>,
}

impl Model for Queues {
    ghost use Rattle.std.specs.Prelude.{◌≡◌};
    ghost use Rattle.xpt_core.specs.Transport.{Transport};
    ghost use Rattle.xpt_core.specs.Known.{known, adapters_of};

    ghost Value = { Transport };

    ghost view = { λ x. x.devices };

    ghost invariant = { λ x. x.sims.items ≡ adapters_of x.devices.config (known x.devices.config x.devices.events) };
}

impl Queues {
    ghost use Rattle.event_rules.specs.Counts.{sendings, adapter_freezes};
    ghost use Rattle.event_rules.specs.Head.{goes_now_to_adapter, goes_now_over_link, adapter_has_opening, link_has_opening, next};
    ghost use Rattle.event_rules.specs.Legal.{is_legal_event};
    ghost use Rattle.xpt_core.specs.Known.{known, adapter_of};
    ghost use Rattle.xpt_core.specs.Next.{next_of};

    /// Queues and devices to which nothing has happened, with memory for all that the rules let happen.
    pub fn open(alloc: Global, config: Config, rules: Rules) -> Result<Queues, AllocError>
        ensures { IfOk result (λ x. x ≡ record { config = config; rules = rules; events = [] }) }
    {
        let sims = open_queues(alloc, &config)?;
        let devices = Devices::open(alloc, config, rules)?;
        Ok(Queues { devices, sims })
    }

    /// Puts a legal event after the others. It takes the time of `Devices::append`, and time that grows with the number
    /// of devices on the adapter; a tick asks each device.
    pub fn append(&mut self, event: Event)
        requires legal { IsTrue (is_legal_event (self.old.rules) self.old.config (self.old.events, event)) }
        ensures { self.new ≡ record self.old { events = self.old.events ++ event ∷ [] } }
    {
        let affected = affected_by(&self.devices, &event);
        self.devices.append(event);
        let place = self.devices.events().len() as u32 - 1;
        update(&mut self.sims, self.devices.config(), &event, place);
        refresh(&mut self.sims, &self.devices, affected);
    }

    /// The devices, with the configuration, the rules and the events.
    pub fn devices(&self) -> &Devices
        ensures { result.now ≡ self.now }
    {
        &self.devices
    }

    // The adapter's queue.
    fn sim(&self, adapter: u32) -> &SimQueue
        requires { adapter < length self.now.config.adapters }
        ensures { result.now ≡ adapter_of self.now.config (known self.now.config self.now.events) adapter }
    {
        &self.sims[adapter as usize]
    }

    /// Whose turn it is on the adapter: the first stay of its device that sends next. None where it is frozen, its
    /// openings or those of its link are used, or no device on it is ready.
    pub fn next(&self, adapter: u32) -> Option<Next>
        requires { adapter < length self.now.config.adapters }
        ensures { result ≡ option_map next_of (next self.now.config self.now.events adapter) }
    {
        if !self.link_has_opening(adapter) {
            return None;
        }
        let device = self.sim(adapter).best_ready()?;
        let stay = self.devices.first(device)?;
        Some(Next::new(device, stay))
    }

    /// The freezes of the adapter, at most 65,535.
    #[tactic(auto, unfolding(crate::specs::Known::known))]
    pub fn callers(&self, adapter: u32) -> u32
        requires { adapter < length self.now.config.adapters }
        ensures same { result ≡ adapter_freezes self.now.events adapter }
        ensures most { result ≤ MAX_FREEZES }
    {
        self.sim(adapter).callers()
    }

    /// Whether a freeze of the adapter holds.
    #[tactic(auto, unfolding(crate::specs::Known::known))]
    pub fn is_frozen(&self, adapter: u32) -> bool
        requires { adapter < length self.now.config.adapters }
        ensures { result ≡ not (adapter_freezes self.now.events adapter == 0) }
    {
        self.sim(adapter).frozen()
    }

    /// How many commands were sent by the adapter in this round.
    #[tactic(auto, unfolding(crate::specs::Known::known))]
    pub fn sent(&self, adapter: u32) -> u32
        requires { adapter < length self.now.config.adapters }
        ensures { result ≡ count_by (goes_now_to_adapter self.now.config self.now.events adapter) (sendings self.now.events) }
    {
        self.sim(adapter).sent()
    }

    /// Whether the adapter has an opening left in this round.
    #[tactic(auto, unfolding(crate::specs::Known::known, event_rules::specs::Head::adapter_has_opening))]
    pub fn has_opening(&self, adapter: u32) -> bool
        requires { adapter < length self.now.config.adapters }
        ensures { result ≡ adapter_has_opening self.now.config self.now.events adapter }
    {
        let sim = self.sim(adapter);
        sim.sent() < sim.openings()
    }

    /// Whether an opening of the adapter's link is left in this round, if it is on one. It takes time that grows with the
    /// number of adapters.
    #[tactic(auto, unfolding(event_rules::specs::Head::link_has_opening))]
    pub fn link_has_opening(&self, adapter: u32) -> bool
        ensures { result ≡ link_has_opening self.now.config self.now.events adapter }
    {
        let config = self.devices.config();
        match config.adapter_link(adapter) {
            Some(link) => self.sent_over(link) < config.link_openings(link),
            None => true,
        }
    }

    /// How many commands were sent over the link in this round: by all adapters on it.
    pub fn sent_over(&self, link: u32) -> u32
        ensures { result ≡ count_by (goes_now_over_link self.now.config self.now.events link) (sendings self.now.events) }
    {
        // There are no more sends than events.
        if self.devices.events().is_empty() {
            return 0;
        }
        let config = self.devices.config();
        let mut sent = 0;
        for adapter in 0..config.adapters().len() as u32 {
            if config.adapter_link(adapter) == Some(link) {
                sent += self.sent(adapter);
            }
        }
        sent
    }

    /// The configuration and the events.
    pub fn into_parts(self) -> (Config, Vec<Event>)
        ensures config { result.0 ≡ self.config }
        ensures events { result.1.items ≡ self.events }
    {
        self.devices.into_parts()
    }
}
