//! What some requests waited, and what that cost.

use wait_causes::{CauseRounds, ExplainedStay};

/// What some requests waited, and what that cost in weighted rounds.
#[derive(Clone, Copy, Default)]
pub struct Costs {
    /// How many requests these are.
    pub requests: u64,
    /// The rounds that they waited.
    pub waited: u64,
    /// What the waiting cost.
    pub live: u64,
    /// The same in the best schedule at the recorded pace.
    pub pace: u64,
    /// The same in the best schedule.
    pub best: u64,
    /// What the waiting cost while the device took nothing.
    pub device_stopped: u64,
    /// While the adapter took nothing.
    pub adapter_stopped: u64,
    /// While the device took as many as it could.
    pub device_full: u64,
    /// While the adapter took as many as it could.
    pub adapter_full: u64,
    /// While there was room.
    pub not_asked: u64,
}

impl Costs {
    /// Those of a request.
    pub fn of(stay: &ExplainedStay) -> Costs {
        let weight = u64::from(stay.weight);
        let until = |round: u32| {
            weight.saturating_mul(u64::from(round.saturating_sub(stay.arrival)))
        };
        let CauseRounds {
            device_stopped,
            adapter_stopped,
            device_full,
            adapter_full,
            not_asked,
            ..
        } = stay.rounds;
        let cost = |rounds: u32| weight.saturating_mul(u64::from(rounds));
        Costs {
            requests: 1,
            waited: u64::from(stay.live.saturating_sub(stay.arrival)),
            live: until(stay.live),
            pace: until(stay.pace.unwrap_or(stay.live)),
            best: until(stay.best),
            device_stopped: cost(device_stopped),
            adapter_stopped: cost(adapter_stopped),
            device_full: cost(device_full),
            adapter_full: cost(adapter_full),
            not_asked: cost(not_asked),
        }
    }

    /// These and others together.
    pub fn with(self, other: Costs) -> Costs {
        Costs {
            requests: self.requests.saturating_add(other.requests),
            waited: self.waited.saturating_add(other.waited),
            live: self.live.saturating_add(other.live),
            pace: self.pace.saturating_add(other.pace),
            best: self.best.saturating_add(other.best),
            device_stopped: self.device_stopped.saturating_add(other.device_stopped),
            adapter_stopped: self.adapter_stopped.saturating_add(other.adapter_stopped),
            device_full: self.device_full.saturating_add(other.device_full),
            adapter_full: self.adapter_full.saturating_add(other.adapter_full),
            not_asked: self.not_asked.saturating_add(other.not_asked),
        }
    }

    /// Each number under its name.
    pub(crate) fn named(&self) -> [(&'static str, u64); 10] {
        [
            ("requests", self.requests),
            ("waited", self.waited),
            ("live", self.live),
            ("pace", self.pace),
            ("best", self.best),
            ("device_stopped", self.device_stopped),
            ("adapter_stopped", self.adapter_stopped),
            ("device_full", self.device_full),
            ("adapter_full", self.adapter_full),
            ("not_asked", self.not_asked),
        ]
    }

    /// What another order of the same starts would have avoided.
    pub fn by_order(&self) -> u64 {
        self.live.saturating_sub(self.pace)
    }

    /// What starts in idle slots would have avoided beyond that.
    pub fn by_idle_slots(&self) -> u64 {
        self.pace.saturating_sub(self.best)
    }

    /// What could have been avoided.
    pub fn avoidable(&self) -> u64 {
        self.live.saturating_sub(self.best)
    }
}
