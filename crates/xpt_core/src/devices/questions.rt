//! What there is to ask of a transport's devices.

ghost use Rattle.std.specs.Prelude.{◌≡◌, ◌+◌, ◌<◌, ◌≤◌, ◌==◌, not, length, IsTrue, is_some, count_by};
ghost use Rattle.std.specs.Option.{option_map};
ghost use Rattle.cam_types.specs.declared.limits.TheConstants.{MAX_EVENTS, MAX_FREEZES};

use super::Devices;
use cam_types::{Config, Priority};
use dev_queue::{DevQueue, Waiting};
use event_rules::{Event, Rules, Submission};

impl Devices {
    ghost use Rattle.event_rules.specs.Counts.{round, commands, submission, sendings, caller_count, freeze_count, has_in_flight};
    ghost use Rattle.event_rules.specs.Stays.{stays_begun, waiting, first};
    ghost use Rattle.event_rules.specs.Head.{openings, goes_now_to, is_ready, has_opening};
    ghost use Rattle.event_rules.specs.Legal.{is_legal};
    ghost use Rattle.xpt_core.specs.Device.{entry, device_state};
    ghost use Rattle.xpt_core.specs.Ready.{ready_priority};

    /// The configuration.
    pub fn config(&self) -> &Config
        ensures { result.now ≡ self.now.config }
    {
        &self.config
    }

    /// How far the events may go.
    pub fn rules(&self) -> Rules
        ensures { result ≡ self.now.rules }
    {
        self.rules
    }

    /// The events so far, in order: each is legal at its place.
    pub fn events(&self) -> &[Event]
        ensures same { result.now ≡ self.now.events }
        ensures legal { IsTrue (is_legal self.now.rules self.now.config self.now.events) }
        ensures short { length result.now ≤ MAX_EVENTS }
    {
        &self.events
    }

    /// The round, the first of which is 1.
    #[tactic(auto, unfolding(crate::specs::Counted::counts_of))]
    pub fn round(&self) -> u32
        ensures { result ≡ round self.now.events }
    {
        self.counts.round
    }

    /// How many CCBs were submitted.
    pub fn commands(&self) -> u32
        ensures { result ≡ commands self.now.events }
    {
        self.submissions.len() as u32
    }

    /// How many stays began.
    #[tactic(auto, unfolding(crate::specs::Counted::counts_of))]
    pub fn stay_count(&self) -> u32
        ensures { result ≡ length (stays_begun self.now.events) }
    {
        self.counts.stays
    }

    /// How many stays are without a send, at all devices together, those that wait for the next round among them.
    #[tactic(auto, unfolding(crate::specs::Counted::counts_of))]
    pub fn waiting_count(&self) -> u32
        ensures { result ≡ length (waiting self.now.events) }
    {
        self.counts.waiting
    }

    /// Whether some CCB is in flight.
    pub fn has_in_flight(&self) -> bool
        ensures { result ≡ has_in_flight self.now.events }
    {
        self.counts.in_flight != 0
    }

    /// What was submitted as the CCB of this number.
    pub fn submission(&self, ccb: u32) -> Option<Submission>
        ensures { result ≡ submission self.now.events ccb }
    {
        self.submissions.get(ccb as usize).copied()
    }

    /// The device's queue.
    pub fn queue(&self, device: u32) -> &DevQueue
        requires { device < length self.now.config.devices }
        ensures { result.now ≡ device_state self.now.config self.now.rules.stays self.now.events device }
    {
        &self.queues[device as usize]
    }

    /// The first stay of the device's queue, by its CCB and its priority.
    pub fn first(&self, device: u32) -> Option<Waiting>
        requires { device < length self.now.config.devices }
        ensures { result ≡ option_map entry (first self.now.events device) }
    {
        self.queue(device).first()
    }

    /// Whether a stay is queued at the device, in this round.
    pub fn has_queued_stay(&self, device: u32) -> bool
        requires { device < length self.now.config.devices }
        ensures { result ≡ is_some (first self.now.events device) }
    {
        self.first(device).is_some()
    }

    /// The freezes of the device by its callers, at most 65,535.
    #[tactic(auto, unfolding(crate::specs::Device::device_state))]
    pub fn caller_count(&self, device: u32) -> u32
        requires { device < length self.now.config.devices }
        ensures same { result ≡ caller_count self.now.events device }
        ensures most { result ≤ MAX_FREEZES }
    {
        self.queue(device).callers()
    }

    /// The freezes of the device, by its callers and by errors.
    #[tactic(auto, unfolding(crate::specs::Device::device_state))]
    pub fn freeze_count(&self, device: u32) -> u64
        requires { device < length self.now.config.devices }
        ensures { result ≡ freeze_count self.now.events device }
    {
        let queue = self.queue(device);
        u64::from(queue.callers()) + u64::from(queue.errors())
    }

    /// Whether a freeze of the device holds.
    #[tactic(auto, unfolding(crate::specs::Device::device_state))]
    pub fn is_frozen(&self, device: u32) -> bool
        requires { device < length self.now.config.devices }
        ensures { result ≡ not (freeze_count self.now.events device == 0) }
    {
        self.queue(device).frozen()
    }

    /// How many commands the device takes in this round.
    #[tactic(auto, unfolding(crate::specs::Device::device_state))]
    pub fn openings(&self, device: u32) -> u32
        requires { device < length self.now.config.devices }
        ensures { result ≡ openings self.now.config self.now.events device }
    {
        self.queue(device).openings()
    }

    /// How many commands were sent to the device in this round.
    #[tactic(auto, unfolding(crate::specs::Device::device_state))]
    pub fn sent(&self, device: u32) -> u32
        requires { device < length self.now.config.devices }
        ensures { result ≡ count_by (goes_now_to self.now.events device) (sendings self.now.events) }
    {
        self.queue(device).sent()
    }

    /// Whether the device has an opening left in this round.
    #[tactic(auto, unfolding(crate::specs::Device::device_state, event_rules::specs::Head::has_opening))]
    pub fn has_opening(&self, device: u32) -> bool
        requires { device < length self.now.config.devices }
        ensures { result ≡ has_opening self.now.config self.now.events device }
    {
        let queue = self.queue(device);
        queue.sent() < queue.openings()
    }

    /// Whether the device may send: a stay is queued, no freeze holds, and an opening is left.
    pub fn is_ready(&self, device: u32) -> bool
        requires { device < length self.now.config.devices }
        ensures { result ≡ is_ready self.now.config self.now.events device }
    {
        self.queue(device).ready()
    }

    /// The priority of the first stay of the device's queue, where the device is ready.
    pub fn ready_priority(&self, device: u32) -> Option<Priority>
        requires { device < length self.now.config.devices }
        ensures { result ≡ ready_priority self.now.config self.now.events device }
    {
        if !self.is_ready(device) {
            return None;
        }
        let stay = self.first(device)?;
        Some(stay.priority)
    }
}
