//! What there is to plan: units that send, and requests that wait at them.

ghost use Rattle.std.specs.Prelude.{◌≡◌, ◌≤◌, ◌+◌, ◌++◌, ◌∷◌, [], length, take, OnOk, OnErr, IfOk};
ghost use Rattle.std.specs.Option.{unwrap_or};

use std::alloc::{AllocError, Global};

/// The greatest weight that a stay may have.
pub const MAX_WEIGHT: u32 = 1000;

/// A request that waits until it is sent.
#[derive(Clone, Copy)]
pub struct NetworkStay {
    /// The unit that sends it, which is the device.
    pub unit: u32,
    /// What each round of waiting costs, from 1 to `MAX_WEIGHT`.
    pub weight: u32,
    /// The first round in which it may be sent, from 0.
    pub arrival: u32,
    /// The last round in which it may be sent, from 0.
    pub last: u32,
}

/// Units and stays. A unit is a device, an adapter or a link. What a unit sends goes through the unit above it too, and through
/// the one above that.
#[derive(Drop)]
pub struct Network {
    /// How many rounds there are, which are counted from 0.
    pub rounds: u32,
    /// The unit above each unit: a device's adapter, and an adapter's link. If a number is past all units, there is none. What
    /// is below a unit that is above itself can't be sent.
    pub above: Vec<u32>,
    /// How many requests each unit sends at most in each round, unit by unit. What is missing counts as 0.
    pub caps: Vec<u32>,
    /// The stays, in any order.
    pub stays: Vec<NetworkStay>,
}

impl Network {
    /// No unit and no stay yet.
    pub fn new(alloc: Global, rounds: u32) -> Network
        ensures rounds { result.rounds ≡ rounds }
        ensures units { length result.above.items ≡ 0 }
        ensures stays { length result.stays.items ≡ 0 }
    {
        Network {
            rounds,
            above: Vec::new(alloc),
            caps: Vec::new(alloc),
            stays: Vec::new(alloc),
        }
    }

    /// Adds a unit with a cap for each round, and answers its number. Caps that are missing are 0, and those past all rounds
    /// aren't read. The unit above it may be added later. After an `Err` the network is the same.
    #[tactic(auto, using(std::proofs::lemmas::List::take_more))]
    pub fn add_unit(&mut self, above: Option<u32>, caps: &[u32]) -> Result<u32, AllocError>
        ensures rounds { self.new.rounds ≡ self.old.rounds }
        ensures number { IfOk result (λ number. number ≡ length self.old.above.items) }
        ensures units { OnOk result (length self.new.above.items ≡ length self.old.above.items + 1) }
        ensures above { OnOk result (self.new.above.items ≡ self.old.above.items ++ unwrap_or above u32.MAX ∷ []) }
        ensures caps { OnOk result (self.old.rounds ≤ length caps.now → self.new.caps.items ≡ self.old.caps.items ++ take self.old.rounds caps.now) }
        ensures stays { self.new.stays.items ≡ self.old.stays.items }
    {
        let Ok(number) = u32::try_from(self.above.len()) else {
            return Err(AllocError);
        };
        self.caps.reserve(self.rounds as usize)?;
        self.above.push(above.unwrap_or(u32::MAX))?;
        for round in 0..self.rounds {
            self.caps
                .push(caps.get(round as usize).copied().unwrap_or(0))?;
        }
        Ok(number)
    }

    /// Adds a stay, and answers its number. After an `Err` the network is the same.
    pub fn add_stay(&mut self, stay: NetworkStay) -> Result<u32, AllocError>
        ensures rounds { self.new.rounds ≡ self.old.rounds }
        ensures units { self.new.above.items ≡ self.old.above.items }
        ensures number { IfOk result (λ number. number ≡ length self.old.stays.items) }
        ensures stays { OnOk result (length self.new.stays.items ≡ length self.old.stays.items + 1) }
        ensures last { OnOk result (self.new.stays.items ≡ self.old.stays.items ++ stay ∷ []) }
        ensures caps { self.new.caps.items ≡ self.old.caps.items }
        ensures err { OnErr result (self.new.stays.items ≡ self.old.stays.items) }
    {
        let Ok(number) = u32::try_from(self.stays.len()) else {
            return Err(AllocError);
        };
        self.stays.push(stay)?;
        Ok(number)
    }

    /// Whether a stay ends before the last round.
    pub(crate) fn has_ends(&self) -> bool {
        self.stays
            .iter()
            .any(|stay| stay.last.saturating_add(1) < self.rounds)
    }

    /// How many units there are, up to the most that have a number.
    pub fn units(&self) -> u32 {
        u32::try_from(self.above.len()).unwrap_or(u32::MAX)
    }

    /// The unit above a unit, if there is one.
    pub fn unit_above(&self, unit: u32) -> Option<u32> {
        let above = self.above.get(unit as usize).copied()?;
        if above < self.units() {
            Some(above)
        } else {
            None
        }
    }

    /// How many requests a unit sends at most in a round.
    pub fn cap(&self, unit: u32, round: u32) -> u32 {
        self.caps.get(self.place(unit, round)).copied().unwrap_or(0)
    }

    /// The place of a unit and a round in a list that has all rounds of one unit after all rounds of another.
    pub(crate) fn place(&self, unit: u32, round: u32) -> usize {
        (unit as usize)
            .saturating_mul(self.rounds as usize)
            .saturating_add(round as usize)
    }
}
