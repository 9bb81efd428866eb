//! The limits: the most of each thing that there may be, and how far a transport goes.

ghost use Rattle.std.specs.Prelude.{◌≡◌};
ghost use Rattle.cam_types.specs.Topology.{MAX_CCBS, MAX_ROUNDS, MAX_STAYS, MAX_EVENTS, MAX_LINKS, MAX_ADAPTERS, MAX_DEVICES, MAX_LANES, MAX_OPENINGS, MAX_LUN, MAX_PRIORITY, MAX_WEIGHT, MAX_WEIGHT_ROWS, MAX_RETRIES, MAX_FREEZES, MAX_SENSE, MAX_BYTES};
ghost use Rattle.cam_types.specs.Bounds.{is_limit};

use std::marker::Model;
use thiserror::Error;

/// The most CCBs that may be alive at once.
pub const MAX_CCBS: u32 = 1024;
/// The most rounds of a history.
pub const MAX_ROUNDS: u32 = 512;
/// The most stays of a history.
pub const MAX_STAYS: u32 = 4096;
/// The most events of a history.
pub const MAX_EVENTS: u32 = 65535;
/// The most links of a configuration.
pub const MAX_LINKS: usize = 4;
/// The most adapters of a configuration.
pub const MAX_ADAPTERS: usize = 8;
/// The most devices of a configuration.
pub const MAX_DEVICES: usize = 32;
/// The most lanes of an adapter.
pub const MAX_LANES: usize = 4;
/// The most openings of an adapter or a device.
pub const MAX_OPENINGS: u32 = 255;
/// The largest logical unit of a device.
pub const MAX_LUN: u16 = 16383;
/// The least urgent priority.
pub const MAX_PRIORITY: u32 = 1279;
/// The most that a round of waiting costs.
pub const MAX_WEIGHT: u32 = 1000;
/// The most rows of a table of weights.
pub const MAX_WEIGHT_ROWS: usize = 16;
/// The most counted requeues that a CCB may ask for.
pub const MAX_RETRIES: u32 = 7;
/// The most freezes of a device or an adapter by its callers, and the most that one event makes or takes away.
pub const MAX_FREEZES: u32 = 65535;
/// How many bytes of sense data are kept.
pub const MAX_SENSE: usize = 18;
/// The most bytes of a trace, a script or a report.
pub const MAX_BYTES: usize = 16_777_216;

/// Each of them is this number.
pub fn limits_are_these()
    ensures history { (MAX_CCBS ≡ 1024) × (MAX_ROUNDS ≡ 512) × (MAX_STAYS ≡ 4096) × (MAX_EVENTS ≡ 65535) }
    ensures configuration { (MAX_LINKS ≡ 4) × (MAX_ADAPTERS ≡ 8) × (MAX_DEVICES ≡ 32) × (MAX_LANES ≡ 4) × (MAX_OPENINGS ≡ 255) × (MAX_LUN ≡ 16383) }
    ensures commands { (MAX_PRIORITY ≡ 1279) × (MAX_WEIGHT ≡ 1000) × (MAX_WEIGHT_ROWS ≡ 16) × (MAX_RETRIES ≡ 7) × (MAX_FREEZES ≡ 65535) × (MAX_SENSE ≡ 18) }
    ensures text { MAX_BYTES ≡ 16777216 }
{}

/// How far a transport goes: the CCBs alive at once, the rounds, the stays and the events.
#[derive(Clone, Copy, Debug, PartialEq, Eq)]
pub struct Limits {
    ccbs: u32,
    rounds: u32,
    stays: u32,
    events: u32,
}

impl Model for Limits {
    ghost use Rattle.cam_types.specs.Bounds.{Bounds, IsWithin};

    ghost Value = { Bounds };

    ghost view = { λ l. record { ccbs = l.ccbs; rounds = l.rounds; stays = l.stays; events = l.events } };

    ghost invariant = { λ l. IsWithin (record { ccbs = l.ccbs; rounds = l.rounds; stays = l.stays; events = l.events }) };

    ghost inverse = { λ b. record { ccbs = b.ccbs; rounds = b.rounds; stays = b.stays; events = b.events } };
}

/// A limit that is 0, or more than the most that this project supports.
#[derive(Clone, Copy, Debug, PartialEq, Eq, Error)]
#[error("a limit is out of its range")]
pub struct BadLimit;

impl Limits {
    ghost use Rattle.std.specs.Prelude.{◌≡◌, ◌↔◌, ℕ, ◌≤◌, IsOk, IfOk, IsTrue};
    ghost use Rattle.cam_types.specs.Bounds.{Bounds, IsWithin, max_bounds, are_within};

    /// Limits of 1 to 1,024 CCBs alive at once, 1 to 512 rounds, 1 to 4,096 stays and 1 to 65,535 events.
    pub fn new(ccbs: u32, rounds: u32, stays: u32, events: u32) -> Result<Limits, BadLimit>
        ensures within { IsOk result ↔ IsTrue (are_within (record { ccbs = ccbs; rounds = rounds; stays = stays; events = events })) }
        ensures value { IfOk result (λ l. l ≡ record { ccbs = ccbs; rounds = rounds; stays = stays; events = events }) }
    {
        let fits = is_within(ccbs, MAX_CCBS)
            && is_within(rounds, MAX_ROUNDS)
            && is_within(stays, MAX_STAYS)
            && is_within(events, MAX_EVENTS);
        if fits {
            Ok(Limits {
                ccbs,
                rounds,
                stays,
                events,
            })
        } else {
            Err(BadLimit)
        }
    }

    /// The largest limits that there are.
    pub fn most() -> Limits
        ensures { result ≡ max_bounds }
    {
        Limits {
            ccbs: MAX_CCBS,
            rounds: MAX_ROUNDS,
            stays: MAX_STAYS,
            events: MAX_EVENTS,
        }
    }

    /// How many CCBs may be alive at once.
    pub fn ccbs(self) -> u32
        ensures same { result ≡ self.ccbs }
        ensures range { IsWithin self }
    {
        self.ccbs
    }

    /// The last round that may open.
    pub fn rounds(self) -> u32
        ensures same { result ≡ self.rounds }
        ensures range { IsWithin self }
    {
        self.rounds
    }

    /// How many stays may begin.
    pub fn stays(self) -> u32
        ensures same { result ≡ self.stays }
        ensures range { IsWithin self }
    {
        self.stays
    }

    /// How many events there may be.
    pub fn events(self) -> u32
        ensures same { result ≡ self.events }
        ensures range { IsWithin self }
    {
        self.events
    }
}

fn is_within(limit: u32, most: u32) -> bool
    ensures { result ≡ is_limit limit most }
{
    1 <= limit && limit <= most
}
