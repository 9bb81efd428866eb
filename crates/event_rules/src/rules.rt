//! How far the events of a history or of a transport may go.

use cam_types::{Limits, MAX_EVENTS, MAX_ROUNDS, MAX_STAYS};
use std::marker::Model;

/// How far events may go: how many CCBs may be alive at once, if they are counted, and how many rounds, stays and events
/// there may be.
#[derive(Clone, Copy, Debug, PartialEq, Eq)]
pub struct Rules {
    ccbs: Option<u32>,
    rounds: u32,
    stays: u32,
    events: u32,
}

impl Model for Rules {
    ghost use Rattle.event_rules.specs.Legal as legal;

    ghost Value = { legal.Rules };

    ghost view = { λ r. record { ccbs = r.ccbs; rounds = r.rounds; stays = r.stays; events = r.events } };

    ghost invariant = { λ r. legal.IsWithinHistory (record { ccbs = r.ccbs; rounds = r.rounds; stays = r.stays; events = r.events }) };

    ghost inverse = { λ b. record { ccbs = b.ccbs; rounds = b.rounds; stays = b.stays; events = b.events } };
}

impl Rules {
    ghost use Rattle.std.specs.Prelude.{◌≡◌};
    ghost use Rattle.event_rules.specs.Legal.{history_rules, rules_of, max_alive, IsWithinHistory};

    /// The rules of a transport with these limits.
    pub fn of(limits: Limits) -> Rules
        ensures { result ≡ rules_of limits }
    {
        Rules {
            ccbs: Some(limits.ccbs()),
            rounds: limits.rounds(),
            stays: limits.stays(),
            events: limits.events(),
        }
    }

    /// The rules of a history, which doesn't count the CCBs that are alive.
    pub fn of_history() -> Rules
        ensures { result ≡ history_rules }
    {
        Rules {
            ccbs: None,
            rounds: MAX_ROUNDS,
            stays: MAX_STAYS,
            events: MAX_EVENTS,
        }
    }

    /// How many CCBs may be alive at once, if they are counted.
    pub fn ccbs(self) -> Option<u32>
        ensures same { result ≡ self.ccbs }
        ensures range { IsWithinHistory self }
    {
        self.ccbs
    }

    /// How many CCBs can be alive at once: no more than are counted, and each of them has had a stay.
    pub fn max_alive(self) -> u32
        ensures same { result ≡ max_alive self }
        ensures range { IsWithinHistory self }
    {
        self.ccbs.unwrap_or(self.stays)
    }

    /// The last round that may open.
    pub fn rounds(self) -> u32
        ensures same { result ≡ self.rounds }
        ensures range { IsWithinHistory self }
    {
        self.rounds
    }

    /// How many stays may begin.
    pub fn stays(self) -> u32
        ensures same { result ≡ self.stays }
        ensures range { IsWithinHistory self }
    {
        self.stays
    }

    /// How many events there may be.
    pub fn events(self) -> u32
        ensures same { result ≡ self.events }
        ensures range { IsWithinHistory self }
    {
        self.events
    }
}
