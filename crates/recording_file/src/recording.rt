//! Recordings: what some scheduler did with requests.

use crate::cap::Cap;
use crate::name::Name;
use crate::request::Request;
use crate::span::Span;
use cam_types::Config;
use std::marker::Model;

/// What some scheduler did with requests in rounds 1 to a last one: what there was to use, what it took in a round, and when
/// each request arrived and was started, and of some also when it was completed. It keeps the rules of `RecordingFault` and `RequestFault`. A `Recorder` makes one.
#[derive(Debug)]
pub struct Recording {
    pub(crate) unit: Option<Span>,
    pub(crate) rounds: u32,
    pub(crate) config: Config,
    pub(crate) names: Vec<Name>,
    pub(crate) caps: Vec<Cap>,
    pub(crate) requests: Vec<Request>,
    pub(crate) completions: bool,
}

// By hand, so that to its owners a recording that ends is one call and not each of its fields.
impl Drop for Recording {
    fn drop(self) {
        let Recording {
            unit: _,
            rounds: _,
            config: _,
            names: _,
            caps: _,
            requests: _,
            completions: _,
        } = self;
    }
}

impl Model for Recording {
    ghost use Rattle.recording_file.specs.Recorded.{Recorded, IsKept};

    ghost Value = { Recorded };

    ghost view = { λ r. record { unit = r.unit; rounds = r.rounds; config = r.config; names = r.names.items; caps = r.caps.items; requests = r.requests.items; completions = r.completions } };

    ghost invariant = { λ r. IsKept (record { unit = r.unit; rounds = r.rounds; config = r.config; names = r.names.items; caps = r.caps.items; requests = r.requests.items; completions = r.completions }) };
}

impl Recording {
    ghost use Rattle.std.specs.Prelude.{◌≡◌};
    ghost use Rattle.recording_file.specs.Recorded.{IsKept};

    /// How long a round is, if the recording says so.
    pub fn unit(&self) -> Option<Span>
        ensures same { result ≡ self.now.unit }
        ensures kept { IsKept self.now }
    {
        self.unit
    }

    /// The last round, 1 to 65,535.
    pub fn rounds(&self) -> u32
        ensures same { result ≡ self.now.rounds }
        ensures kept { IsKept self.now }
    {
        self.rounds
    }

    /// The weights, links, adapters and devices. There are no lanes.
    pub fn config(&self) -> &Config
        ensures same { result.now ≡ self.now.config }
        ensures kept { IsKept self.now }
    {
        &self.config
    }

    /// The names, by rising kind and number.
    pub fn names(&self) -> &[Name]
        ensures same { result.now ≡ self.now.names }
        ensures kept { IsKept self.now }
    {
        &self.names
    }

    /// The caps, by rising kind, number and rounds.
    pub fn caps(&self) -> &[Cap]
        ensures same { result.now ≡ self.now.caps }
        ensures kept { IsKept self.now }
    {
        &self.caps
    }

    /// Whether the recording says when requests were completed, where that is known. Else no request has `done`.
    pub fn completions(&self) -> bool
        ensures same { result ≡ self.now.completions }
        ensures kept { IsKept self.now }
    {
        self.completions
    }

    /// The requests, in the order of the text.
    pub fn requests(&self) -> &[Request]
        ensures same { result.now ≡ self.now.requests }
        ensures kept { IsKept self.now }
    {
        &self.requests
    }
}
