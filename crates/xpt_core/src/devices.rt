//! The devices of a transport: how they open, and how an event is put after the others.

ghost use Rattle.std.specs.Prelude.{◌≡◌, ◌<◌, ◌≤◌, [], ◌∷◌, ◌++◌, length, IsTrue, IfOk, IfSome, option_to_list, vec_len, vec_capacity};
ghost use Rattle.event_rules.specs.Event.{submission_of};

mod counts;
mod open;
mod questions;
mod update;

use crate::devices::counts::Counts;
use crate::devices::open::open_queues;
use crate::devices::update::update;
use cam_types::Config;
use dev_queue::DevQueue;
use event_rules::{Event, Rules, Submission};
use std::alloc::{AllocError, Global};
use std::marker::Model;

/// The devices of a transport, each with its queue, and the events so far, each legal at its place within the
/// transport's rules. Nothing grows after `open`.
#[derive(Drop)]
pub struct Devices {
    config: Config,
    rules: Rules,
    events: Vec<Event>,
    submissions: Vec<Submission>,
    queues: Vec<DevQueue>,
    counts: Counts,
}

impl Model for Devices {
    ghost use Rattle.xpt_core.specs.Transport.{Transport};
    ghost use Rattle.xpt_core.specs.DevicesSound.{IsDevices};

    ghost Value = { Transport };

    ghost view = { λ d. record { config = d.config; rules = d.rules; events = d.events.items } };

    ghost invariant = { IsDevices };
}

impl Devices {
    ghost use Rattle.event_rules.specs.Legal.{is_legal, is_legal_event};

    /// Devices to which nothing has happened, with memory for all that the rules let happen.
    pub fn open(alloc: Global, config: Config, rules: Rules) -> Result<Devices, AllocError>
        ensures { IfOk result (λ d. d ≡ record { config = config; rules = rules; events = [] }) }
    {
        let stays = rules.stays() as usize;
        let queues = open_queues(alloc, config.devices(), stays)?;
        let events = Vec::with_capacity(alloc, rules.events() as usize)?;
        let submissions = Vec::with_capacity(alloc, stays)?;
        Ok(Devices {
            config,
            rules,
            events,
            submissions,
            queues,
            counts: Counts::none(),
        })
    }

    /// Puts a legal event after the others. It takes time that grows with the logarithm of what waits at the device;
    /// a tick visits each device, and enters what waits for the round that opens.
    pub fn append(&mut self, event: Event)
        requires legal { IsTrue (is_legal_event (self.old.rules) self.old.config (self.old.events, event)) }
        ensures { self.new ≡ record self.old { events = self.old.events ++ event ∷ [] } }
    {
        update(&mut self.queues, &self.submissions, &event);
        self.counts = self.counts.behind(&event);
        keep_submission(&mut self.submissions, &event);
        self.events.push_reserved(event);
    }

    /// The configuration and the events.
    pub fn into_parts(self) -> (Config, Vec<Event>)
        ensures config { result.0 ≡ self.config }
        ensures events { result.1.items ≡ self.events }
    {
        let Devices { config, events, .. } = self;
        (config, events)
    }
}

// Keeps what the event submits.
fn keep_submission(submissions: &mut Vec<Submission>, event: &Event)
    requires room { IfSome (submission_of event.now) (λ _. vec_len submissions.old < vec_capacity submissions.old) }
    ensures items { submissions.new.items ≡ submissions.old.items ++ option_to_list (submission_of event.now) }
    ensures capacity { vec_capacity submissions.new ≡ vec_capacity submissions.old }
{
    if let Some(submission) = event.submission() {
        submissions.push_reserved(submission);
    }
}
