//! A stay with the causes of its waiting.

ghost use Rattle.std.specs.Prelude.{◌≡◌, ◌+◌, ◌<◌, ◌≤◌, ◌^◌};
ghost use Rattle.wait_causes.specs.Parts.{rounds_for, waited, waited_at_pace, measure, Live};
ghost use Rattle.wait_causes.specs.Latencies.{latency};
ghost use Rattle.wait_causes.specs.Stays.{with_round, all_rounds, no_rounds, rounds_since};

use crate::behind::FullBehind;
use round_net::WaitCause;

/// Rounds of waiting by cause.
#[derive(Clone, Copy)]
pub struct CauseRounds {
    /// Rounds at whose ends the device was frozen by an error.
    pub error: u32,
    /// Rounds at whose ends a caller had frozen the device.
    pub caller: u32,
    /// Rounds at whose ends a caller had frozen the adapter.
    pub adapter_frozen: u32,
    /// Rounds in which the device took nothing.
    pub device_stopped: u32,
    /// Rounds in which the adapter took nothing.
    pub adapter_stopped: u32,
    /// Rounds in which the adapter's link took nothing.
    pub link_stopped: u32,
    /// Rounds in which the device had no opening left.
    pub device_full: u32,
    /// Rounds in which the adapter had no opening left.
    pub adapter_full: u32,
    /// Rounds in which the adapter's link had no opening left.
    pub link_full: u32,
    /// Rounds in which nobody asked.
    pub not_asked: u32,
}

impl CauseRounds {
    /// Those of this cause.
    pub fn for_cause(&self, cause: WaitCause) -> u32
        ensures { result ≡ rounds_for cause self.now }
    {
        match cause {
            WaitCause::Error => self.error,
            WaitCause::Caller => self.caller,
            WaitCause::AdapterFrozen => self.adapter_frozen,
            WaitCause::DeviceStopped => self.device_stopped,
            WaitCause::AdapterStopped => self.adapter_stopped,
            WaitCause::LinkStopped => self.link_stopped,
            WaitCause::DeviceFull => self.device_full,
            WaitCause::AdapterFull => self.adapter_full,
            WaitCause::LinkFull => self.link_full,
            WaitCause::NotAsked => self.not_asked,
        }
    }

    /// None at all.
    pub(crate) fn none() -> CauseRounds
        ensures { result ≡ no_rounds }
    {
        CauseRounds {
            error: 0,
            caller: 0,
            adapter_frozen: 0,
            device_stopped: 0,
            adapter_stopped: 0,
            link_stopped: 0,
            device_full: 0,
            adapter_full: 0,
            link_full: 0,
            not_asked: 0,
        }
    }

    /// One round more of this cause.
    pub(crate) fn add(&mut self, cause: WaitCause)
        requires { all_rounds self.old + 1 < 2 ^ 32 }
        ensures { self.new ≡ with_round self.old cause }
    {
        match cause {
            WaitCause::Error => self.error += 1,
            WaitCause::Caller => self.caller += 1,
            WaitCause::AdapterFrozen => self.adapter_frozen += 1,
            WaitCause::DeviceStopped => self.device_stopped += 1,
            WaitCause::AdapterStopped => self.adapter_stopped += 1,
            WaitCause::LinkStopped => self.link_stopped += 1,
            WaitCause::DeviceFull => self.device_full += 1,
            WaitCause::AdapterFull => self.adapter_full += 1,
            WaitCause::LinkFull => self.link_full += 1,
            WaitCause::NotAsked => self.not_asked += 1,
        }
    }

    /// Those of these that aren't among the earlier ones.
    pub(crate) fn since(self, earlier: CauseRounds) -> CauseRounds
        ensures { result ≡ rounds_since self earlier }
    {
        CauseRounds {
            error: self.error.saturating_sub(earlier.error),
            caller: self.caller.saturating_sub(earlier.caller),
            adapter_frozen: self.adapter_frozen.saturating_sub(earlier.adapter_frozen),
            device_stopped: self.device_stopped.saturating_sub(earlier.device_stopped),
            adapter_stopped: self.adapter_stopped.saturating_sub(earlier.adapter_stopped),
            link_stopped: self.link_stopped.saturating_sub(earlier.link_stopped),
            device_full: self.device_full.saturating_sub(earlier.device_full),
            adapter_full: self.adapter_full.saturating_sub(earlier.adapter_full),
            link_full: self.link_full.saturating_sub(earlier.link_full),
            not_asked: self.not_asked.saturating_sub(earlier.not_asked),
        }
    }
}

/// A stay, where it was sent, and where other schedules send it.
#[derive(Clone, Copy)]
pub struct ExplainedStay {
    /// The number of its CCB; of a recording that of the request, from 0.
    pub ccb: u32,
    /// Its try, from 0; of a recording 0.
    pub attempt: u32,
    /// The driver that submitted the CCB, or asked for the request.
    pub driver: u8,
    /// The number of its device.
    pub device: u32,
    /// The number of its device's adapter.
    pub adapter: u32,
    /// Its priority, 0 to 1279.
    pub priority: u32,
    /// The run level of its priority, 0 to 4.
    pub level: u32,
    /// What each round of its waiting costs, by its priority.
    pub weight: u16,
    /// The round in which it entered its queue, from 1.
    pub arrival: u32,
    /// The round in which it was sent; the last round of all if it wasn't.
    pub live: u32,
    /// The round in which the best schedule at the recorded pace sends it; none of a trace.
    pub pace: Option<u32>,
    /// The round in which the best schedule sends it.
    pub best: u32,
    /// The last round in which it could have been sent, if a recording says it.
    pub last: Option<u32>,
    /// The round in which it was completed, if a recording says it. It may be after the last round.
    pub done: Option<u32>,
    /// How many rounds it waited for each cause, `live - arrival` together.
    pub rounds: CauseRounds,
    /// How many of these in which a row was full, by what that row sent.
    pub behind: FullBehind,
}

impl ExplainedStay {
    /// The rounds that it waited.
    pub(crate) fn waited(&self) -> u32
        ensures { result ≡ waited self.now }
    {
        self.live.saturating_sub(self.arrival)
    }

    /// The rounds that it waits at the recorded pace, if they are known.
    pub(crate) fn waited_at_pace(&self) -> u32
        ensures { result ≡ waited_at_pace self.now }
    {
        match self.pace {
            Some(pace) => pace.saturating_sub(self.arrival),
            None => 0,
        }
    }

    /// The rounds from the one of its arrival to that of its completion, if that is known.
    pub fn latency(&self) -> Option<u32>
        ensures { result ≡ latency self.now }
    {
        match self.done {
            Some(done) => Some(done.saturating_sub(self.arrival)),
            None => None,
        }
    }

    /// The weighted rounds that it waited.
    pub fn cost(&self) -> u64
        ensures same { result ≡ measure Live self.now }
        ensures small { result ≤ 281474976710656 }
    {
        u64::from(self.weight) * u64::from(self.waited())
    }
}
