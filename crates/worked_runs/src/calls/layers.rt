//! A transport's working state, beside a history of the same events.

use crate::calls::call::Layer;
use cam_event::History;
use cam_types::Config;
use event_rules::{Event, Refusal, Rules};
use std::alloc::{AllocError, Global};
use std::io;
use xpt_core::State;

/// A history, and a transport's working state after the same events.
#[derive(Drop)]
pub struct Layers {
    history: History,
    state: State,
}

impl Layers {
    /// Both without events.
    pub fn open(alloc: Global, config: &Config) -> Result<Layers, AllocError> {
        let history = History::new(alloc, config.copy(alloc)?)?;
        let state = State::open(alloc, config.copy(alloc)?, Rules::of_history())?;
        Ok(Layers { history, state })
    }

    /// Takes an event in both, unless they refuse it.
    pub fn push(&mut self, event: &Event) -> Result<(), Refusal> {
        self.state.take(*event)?;
        let _ = self.history.push(*event);
        Ok(())
    }

    /// The events.
    pub fn events(&self) -> &[Event] {
        self.history.events()
    }

    /// Prints what there is to see of a layer.
    pub fn tell(&self, rt: &HostRuntime, layer: Layer) -> io::Result<()> {
        match layer {
            Layer::Queue(device) => self.tell_queue(rt, device),
            Layer::Turn(adapter) => self.tell_turn(rt, adapter),
            Layer::Ccb(ccb) => self.tell_ccb(rt, ccb),
            Layer::Counts => self.tell_counts(rt),
            Layer::History => self.tell_history(rt),
        }
    }

    fn tell_queue(&self, rt: &HostRuntime, device: u32) -> io::Result<()> {
        let devices = self.state.devices();
        if device as usize >= devices.config().devices().len() {
            return println!(rt; "no device");
        }
        println!(rt;
            "first {:?} queued {} callers {} freezes {} frozen {} opening {} ready {} priority {:?}",
            devices.first(device).map(|stay| stay.ccb),
            devices.has_queued_stay(device),
            devices.caller_count(device),
            devices.freeze_count(device),
            devices.is_frozen(device),
            devices.has_opening(device),
            devices.is_ready(device),
            devices
                .ready_priority(device)
                .map(|priority| priority.number())
        )
    }

    fn tell_turn(&self, rt: &HostRuntime, adapter: u32) -> io::Result<()> {
        let adapters = self.state.queues();
        if adapter as usize >= adapters.devices().config().adapters().len() {
            return println!(rt; "no adapter");
        }
        println!(rt;
            "ccb and device {:?} callers {} frozen {} opening {}",
            adapters.next(adapter).map(|turn| (turn.ccb, turn.device)),
            adapters.callers(adapter),
            adapters.is_frozen(adapter),
            adapters.has_opening(adapter)
        )
    }

    fn tell_ccb(&self, rt: &HostRuntime, number: u32) -> io::Result<()> {
        let ccbs = &self.state;
        println!(rt;
            "counted, try and driver {:?} in flight {} recovering {} class {:?} requeue {} finish {}",
            ccbs.ccb(number)
                .map(|ccb| (ccb.counted, ccb.attempt, ccb.submission.driver)),
            ccbs.is_in_flight(number),
            ccbs.is_recovering(number),
            ccbs.class(number),
            ccbs.wants_requeue(number),
            ccbs.wants_finish(number)
        )
    }

    fn tell_counts(&self, rt: &HostRuntime) -> io::Result<()> {
        let ccbs = &self.state;
        let devices = self.state.devices();
        println!(rt;
            "round {} stays {} waiting {} alive {} in flight {} {} cases {} next {:?}",
            devices.round(),
            devices.stay_count(),
            devices.waiting_count(),
            ccbs.alive(),
            devices.has_in_flight(),
            ccbs.in_flight_count(),
            ccbs.case_count(),
            ccbs.nth_case(0)
        )
    }

    fn tell_history(&self, rt: &HostRuntime) -> io::Result<()> {
        println!(rt;
            "round {} commands {} stays {} unsent {:?} live {:?}",
            self.history.round(),
            self.history.commands(),
            self.history.stay_count(),
            self.history.unsent().map(|stay| (stay.ccb, stay.attempt)),
            self.history.live_cost()
        )
    }
}
