//! What is explained: a history, by its trace, or a recording.

use crate::known::Known;
use crate::recorded::RecordedRounds;
use cam_types::Config;
use recording_file::{Name, Span};
use round_net::{RoundTable, WaitCause};

/// What is explained, with why its stays waited in each round.
#[derive(Drop)]
pub enum Origin {
    /// A history of this transport, by its trace.
    Trace(RoundTable),
    /// What some scheduler did with requests.
    Recording(RecordedRounds),
}

impl Origin {
    ghost use Rattle.std.specs.Prelude.{◌≡◌, ◌<◌, ◌≤◌};
    ghost use Rattle.wait_causes.specs.Origins.{instance_in, cause_of, config_in, names_in, unit_in, known_of};

    /// Why the stays of the device waited in the round.
    pub(crate) fn cause(&self, device: u32, round: u32) -> WaitCause
        requires device { device < (instance_in self.now).devices }
        requires first { 1 ≤ round }
        requires last { round ≤ (instance_in self.now).rounds }
        ensures { result ≡ cause_of self.now device round }
    {
        match self {
            Origin::Trace(table) => table.cause(device, round),
            Origin::Recording(rounds) => rounds.cause(device, round),
        }
    }

    /// The adapters, devices, links and weights.
    pub(crate) fn config(&self) -> &Config
        ensures { result.now ≡ config_in self.now }
    {
        match self {
            Origin::Trace(table) => table.end().devices().config(),
            Origin::Recording(rounds) => rounds.config(),
        }
    }

    /// What people call the drivers, devices, adapters and links.
    pub(crate) fn names(&self) -> &[Name]
        ensures { result.now ≡ names_in self.now }
    {
        match self {
            Origin::Trace(_) => &[],
            Origin::Recording(rounds) => rounds.names(),
        }
    }

    /// What it says of its stays beside where they were sent.
    pub(crate) fn known(&self) -> Known
        ensures { result ≡ known_of self.now }
    {
        match self {
            Origin::Trace(_) => Known {
                pace: false,
                completions: false,
            },
            Origin::Recording(rounds) => Known {
                pace: true,
                completions: rounds.completions(),
            },
        }
    }

    /// How long a round is, if that is known.
    pub(crate) fn unit(&self) -> Option<Span>
        ensures { result ≡ unit_in self.now }
    {
        match self {
            Origin::Trace(_) => None,
            Origin::Recording(rounds) => rounds.unit(),
        }
    }
}
