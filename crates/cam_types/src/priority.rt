//! Priorities and their run levels.

ghost use Rattle.std.specs.Prelude.{◌≡◌, ℕ, ◌<◌, ◌≤◌, MatchResult};
ghost use Rattle.cam_types.specs.Priority.{run_level};
ghost use Rattle.cam_types.specs.Topology.{MAX_PRIORITY};

use crate::limits::MAX_PRIORITY;
use std::marker::Model;
use thiserror::Error;

/// How urgent a CCB is, from 0 to 1279: the smaller number is the more urgent, as in FreeBSD's `cam.h`.
#[derive(Clone, Copy, Debug, PartialEq, Eq, PartialOrd, Ord)]
pub struct Priority {
    number: u32,
}

impl Model for Priority {
    ghost Value = { ℕ };

    ghost view = { λ p. p.number };

    ghost invariant = { λ p. p.number ≤ MAX_PRIORITY };

    ghost inverse = { λ n. record { number = n } };
}

/// A number above 1279, which is no priority.
#[derive(Clone, Copy, Debug, PartialEq, Eq, Error)]
#[error("no priority is {0}: the least urgent is 1279")]
pub struct BadPriority(pub u32);

impl Priority {
    /// The priority of this number, which is at most 1279.
    pub fn new(number: u32) -> Result<Priority, BadPriority>
        ensures { MatchResult result (λ p. (p ≡ number) × (number ≤ MAX_PRIORITY)) (λ e. (e.0 ≡ number) × (MAX_PRIORITY < number)) }
    {
        if number <= MAX_PRIORITY {
            Ok(Priority { number })
        } else {
            Err(BadPriority(number))
        }
    }

    /// Its number.
    pub fn number(self) -> u32
        ensures same { result ≡ self }
        ensures most { result ≤ MAX_PRIORITY }
    {
        self.number
    }

    /// Its run level, from 0 to 4: HOST, BUS, XPT, DEV and NORMAL, 256 priorities each.
    pub fn run_level(self) -> u32
        ensures { result ≡ run_level self }
    {
        self.number >> 8
    }
}
