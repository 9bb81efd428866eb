//! Makes recordings item by item.

ghost use Rattle.std.specs.Prelude.{◌≡◌, ◌≢◌, ◌<◌, ◌≤◌, [], ◌∷◌, ◌++◌, true, nat_lt, length, Err, OnOk, OnErr, IfSome};
ghost use Rattle.cam_types.specs.Topology.{IsConfig};
ghost use Rattle.recording_file.specs.Caps.{is_cap, is_next_cap};
ghost use Rattle.recording_file.specs.Counts.{counts_of};
ghost use Rattle.recording_file.specs.Names.{is_name, is_next_name};
ghost use Rattle.recording_file.specs.Recorded.{Span, IsKept, is_done_right, request_cause, has_items, MAX_RECORDED_ROUNDS, MAX_REQUESTS};
ghost use Rattle.recording_file.specs.Requests.{unless_cause, OutOfMemory};

use crate::cap::Cap;
use crate::counts::Counts;
use crate::limits::MAX_REQUESTS;
use crate::name::{Name, NameKind};
use crate::next_item::{is_cap, is_name, is_next_cap, is_next_name};
use crate::part::Part;
use crate::placing::place_request;
use crate::recording::Recording;
use crate::request::Request;
use crate::request_error::RequestError;
use crate::span::Span;
use cam_types::Config;
use std::alloc::{AllocError, Global};
use std::marker::Model;

/// A recording in the making: names, then caps, then requests are added one by one, and each keeps the rules.
#[derive(Debug, Drop)]
pub struct Recorder {
    unit: Option<Span>,
    rounds: u32,
    config: Config,
    names: Vec<Name>,
    caps: Vec<Cap>,
    requests: Vec<Request>,
    completions: bool,
    // How many requests more each device, adapter and link could take in each round. It has no cell before the first request.
    room: Vec<u32>,
}

impl Model for Recorder {
    ghost use Rattle.recording_file.specs.Recorded.{Recorded};
    ghost use Rattle.recording_file.specs.Room.{IsRecorder};

    ghost Value = { Recorded };

    ghost view = { λ r. record { unit = r.unit; rounds = r.rounds; config = r.config; names = r.names.items; caps = r.caps.items; requests = r.requests.items; completions = r.completions } };

    ghost invariant = { λ r. IsRecorder (record { unit = r.unit; rounds = r.rounds; config = r.config; names = r.names.items; caps = r.caps.items; requests = r.requests.items; completions = r.completions }) r.room.items };
}

impl Recorder {
    /// A recording of these rounds without names, caps and requests. With `completions` it can say when a request was
    /// completed.
    pub fn new(
        alloc: Global,
        unit: Option<Span>,
        rounds: u32,
        config: Config,
        completions: bool,
    ) -> Recorder
        requires unit { IfSome unit (λ (u : Span). 1 ≤ u.count) }
        requires some { 1 ≤ rounds }
        requires few { rounds ≤ MAX_RECORDED_ROUNDS }
        requires kept { IsConfig config }
        requires lanes { config.lanes ≡ [] }
        ensures { result ≡ record { unit = unit; rounds = rounds; config = config; names = []; caps = []; requests = []; completions = completions } }
    {
        Recorder {
            unit,
            rounds,
            config,
            names: Vec::new(alloc),
            caps: Vec::new(alloc),
            requests: Vec::new(alloc),
            completions,
            room: Vec::new(alloc),
        }
    }

    /// The last round.
    pub fn rounds(&self) -> u32
        ensures same { result ≡ self.now.rounds }
        ensures kept { IsKept self.now }
    {
        self.rounds
    }

    /// Whether it can say when a request was completed.
    pub fn completions(&self) -> bool
        ensures { result ≡ self.now.completions }
    {
        self.completions
    }

    pub(crate) fn counts(&self) -> Counts
        ensures { result ≡ counts_of self.now.config }
    {
        Counts::of(&self.config)
    }

    /// Whether there are names.
    pub fn has_names(&self) -> bool
        ensures { result ≡ has_items self.now.names }
    {
        !self.names.is_empty()
    }

    /// Whether there are caps.
    pub fn has_caps(&self) -> bool
        ensures { result ≡ has_items self.now.caps }
    {
        !self.caps.is_empty()
    }

    /// Whether there are requests.
    pub fn has_requests(&self) -> bool
        ensures { result ≡ has_items self.now.requests }
    {
        !self.requests.is_empty()
    }

    /// Whether there may be a request more.
    pub fn has_place(&self) -> bool
        ensures { result ≡ nat_lt (length self.now.requests) MAX_REQUESTS }
    {
        self.requests.len() < MAX_REQUESTS
    }

    /// Whether a kind's number comes after the names.
    pub(crate) fn is_next_name(&self, kind: NameKind, number: u32) -> bool
        ensures { result ≡ is_next_name self.now.names kind number }
    {
        is_next_name(&self.names, kind, number)
    }

    /// Whether a part's first round comes after the caps.
    pub(crate) fn is_next_cap(&self, part: Part, first: u32) -> bool
        ensures { result ≡ is_next_cap self.now.caps part first }
    {
        is_next_cap(&self.caps, part, first)
    }

    /// Whether a name may come next: what it is for is there, and comes after the other names by kind and number.
    pub fn takes_name(&self, name: &Name) -> bool
        ensures { result ≡ is_name (counts_of self.now.config) (self.now.names, name.now) }
    {
        is_name(Counts::of(&self.config), &self.names, name)
    }

    /// Adds a name.
    ///
    /// # Errors
    ///
    /// `AllocError` if no memory is left. The names are as they were.
    pub fn add_name(&mut self, name: Name) -> Result<(), AllocError>
        requires { is_name (counts_of self.old.config) (self.old.names, name) ≡ true }
        ensures ok { OnOk result (self.new ≡ record self.old { names = self.old.names ++ name ∷ [] }) }
        ensures err { OnErr result (self.new ≡ self.old) }
    {
        match self.names.push(name) {
            Ok(()) => Ok(()),
            Err(_) => Err(AllocError),
        }
    }

    /// Whether a cap may come next: its part is there, its rounds are some of the recording's, it comes after the other caps by
    /// kind, number and rounds, and is for at most 65,535 requests.
    pub fn takes_cap(&self, cap: Cap) -> bool
        ensures { result ≡ is_cap self.now.rounds (counts_of self.now.config) (self.now.caps, cap) }
    {
        is_cap(self.rounds, Counts::of(&self.config), &self.caps, cap)
    }

    /// Adds a cap, before any request.
    ///
    /// # Errors
    ///
    /// `AllocError` if no memory is left. The caps are as they were.
    pub fn add_cap(&mut self, cap: Cap) -> Result<(), AllocError>
        requires next { is_cap self.old.rounds (counts_of self.old.config) (self.old.caps, cap) ≡ true }
        requires first { self.old.requests ≡ [] }
        ensures ok { OnOk result (self.new ≡ record self.old { caps = self.old.caps ++ cap ∷ [] }) }
        ensures err { OnErr result (self.new ≡ self.old) }
    {
        self.room.clear();
        match self.caps.push(cap) {
            Ok(()) => Ok(()),
            Err(_) => Err(AllocError),
        }
    }

    /// Whether a request's completion may be recorded: it has none, or it isn't before its start, where completions are recorded.
    pub fn takes_done(&self, request: Request) -> bool
        ensures { result ≡ is_done_right self.now.completions request }
    {
        match request.done {
            Some(done) => self.completions && request.sent <= done,
            None => true,
        }
    }

    /// Adds a request, whose completion, if it has one, isn't before its start, where completions are recorded. Refused, the
    /// recording is as it was.
    ///
    /// # Errors
    ///
    /// `Illegal` with the first cause that it can't be one of the recording, beside the requests before it. `OutOfMemory` if no
    /// memory is left.
    pub fn add_request(&mut self, alloc: Global, request: Request) -> Result<(), RequestError>
        requires few { length self.old.requests < MAX_REQUESTS }
        requires done { is_done_right self.old.completions request ≡ true }
        ensures answer { result ≢ Err OutOfMemory → result ≡ unless_cause (request_cause self.old.rounds self.old.config self.old.caps (self.old.requests, request)) }
        ensures ok { OnOk result (self.new ≡ record self.old { requests = self.old.requests ++ request ∷ [] }) }
        ensures err { OnErr result (self.new ≡ self.old) }
    {
        place_request(
            alloc,
            &mut self.room,
            &mut self.requests,
            self.rounds,
            &self.config,
            &self.caps,
            request,
        )
    }

    /// The recording.
    pub fn finish(self) -> Recording
        ensures same { result ≡ self }
        ensures kept { IsKept result }
    {
        let Recorder {
            unit,
            rounds,
            config,
            names,
            caps,
            requests,
            completions,
            room: _,
        } = self;
        Recording {
            unit,
            rounds,
            config,
            names,
            caps,
            requests,
            completions,
        }
    }
}
