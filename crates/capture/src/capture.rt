//! The requests of a capture in rounds.

use crate::capture_fault::CaptureFault;
use crate::device_rounds::{DeviceRows, device_rows, waiting_row};
use crate::median::{middle, numbers_where};
use crate::recording::recording_with;
use crate::request_faults::check_requests;
use crate::round_starts::check_crowds;
use crate::rounds::{check_starts, first_arrival, requests_in, rounds_of};
use crate::span_time::span_nanoseconds;
use crate::started::started;
use crate::timed_request::TimedRequest;
use cam_types::Config;
use recording_file::{Name, Recording, Request, Span};
use std::alloc::{AllocError, Global};
use std::marker::Model;

/// The started requests of a capture, by arrival, in rounds: round 1 begins when the first of them arrives, and the last round
/// is the last one in which something was started.
#[derive(Drop)]
pub struct Capture {
    round: Span,
    rounds: u32,
    requests: Vec<Request>,
}

impl Model for Capture {
    ghost use Rattle.capture.specs.Rounds.{Rounded};
    ghost use Rattle.capture.specs.Faults.{IsCapture};

    ghost Value = { Rounded };

    ghost view = { λ c. record { unit = c.round; rounds = c.rounds; requests = c.requests.items } };

    ghost invariant = { λ c. IsCapture (record { unit = c.round; rounds = c.rounds; requests = c.requests.items }) };
}

impl Capture {
    ghost use Rattle.std.specs.Prelude.{◌≡◌, ◌≢◌, ◌<◌, ◌≤◌, ℕ, All, List, [], length, map, count_by, None, Some, IfOk, IfErr, OnOk};
    ghost use Rattle.std.specs.List.{range_with_len};
    ghost use Rattle.cam_types.specs.declared.limits.TheConstants.{MAX_OPENINGS};
    ghost use Rattle.capture.specs.Captured.{recorded_of, captured, NeverLimits};
    ghost use Rattle.capture.specs.Timed.{TimedRequest, is_started};
    ghost use Rattle.capture.specs.Faults.{IsCapture, capture_fault, rounds_fault, recording_fault, OutOfMemory};
    ghost use Rattle.capture.specs.Loads.{AreDeviceRows};
    ghost use Rattle.capture.specs.Rounds.{in_rounds, rounds_from};
    ghost use Rattle.recording_file.specs.declared.limits.TheConstants.{MAX_RECORDED_ROUNDS};
    ghost use Rattle.capture.specs.Usual.{usual_taken};

    /// The requests that were started, in rounds of that span.
    ///
    /// # Errors
    ///
    /// The first of these: `BadPriority` or `StartedEarly` of the first request that has one of them, `NothingStarted`,
    /// `TooManyRequests`, `TooManyRounds`, `TooManyInRound` with the first such round. `OutOfMemory` if no memory is left.
    pub fn of(
        alloc: Global,
        round: Span,
        requests: &[TimedRequest],
    ) -> Result<Capture, CaptureFault>
        requires { 1 ≤ round.count }
        ensures capture { IfOk result (λ c. c ≡ in_rounds round requests.now) }
        ensures own { IfOk result (λ c. c ≡ in_rounds c.unit requests.now) }
        ensures each_once { IfOk result (λ c. length c.requests ≡ count_by is_started requests.now) }
        ensures ok { OnOk result (capture_fault round requests.now ≡ None) }
        ensures err { IfErr result (λ e. e ≢ OutOfMemory → capture_fault round requests.now ≡ Some e) }
    {
        check_requests(requests)?;
        let span = span_nanoseconds(round);
        let taken = started(alloc, requests)?;
        let rounds = rounds_of(span, &taken)?;
        let requests = requests_in(alloc, span, first_arrival(&taken), rounds, &taken)?;
        check_crowds(alloc, rounds, &requests)?;
        Ok(Capture {
            round,
            rounds,
            requests,
        })
    }

    /// The requests that were started, in that many rounds of that span, of which the first begins at that time, in nanoseconds. What
    /// arrives before it arrives in the first round.
    ///
    /// # Errors
    ///
    /// The first of these: `BadPriority`, `StartedEarly` or `EndedEarly` of the first request that has one of them, `TooManyRequests`,
    /// `TooManyRounds` if one was started after the last round, `TooManyInRound` with the first such round. `OutOfMemory` if no
    /// memory is left.
    pub fn in_rounds_from(
        alloc: Global,
        round: Span,
        begin: u64,
        rounds: u32,
        requests: &[TimedRequest],
    ) -> Result<Capture, CaptureFault>
        requires span { 1 ≤ round.count }
        requires some { 1 ≤ rounds }
        requires few { rounds ≤ MAX_RECORDED_ROUNDS }
        ensures capture { IfOk result (λ c. c ≡ rounds_from round begin rounds requests.now) }
        ensures ok { OnOk result (rounds_fault round begin rounds requests.now ≡ None) }
        ensures err { IfErr result (λ e. e ≢ OutOfMemory → rounds_fault round begin rounds requests.now ≡ Some e) }
    {
        check_requests(requests)?;
        let span = span_nanoseconds(round);
        let taken = started(alloc, requests)?;
        check_starts(span, begin, rounds, &taken)?;
        let requests = requests_in(alloc, span, begin, rounds, &taken)?;
        check_crowds(alloc, rounds, &requests)?;
        Ok(Capture {
            round,
            rounds,
            requests,
        })
    }

    /// How long a round is.
    pub fn round(&self) -> Span
        ensures same { result ≡ self.now.unit }
        ensures kept { IsCapture self.now }
    {
        self.round
    }

    /// The last round, 1 to 65,535.
    pub fn rounds(&self) -> u32
        ensures same { result ≡ self.now.rounds }
        ensures kept { IsCapture self.now }
    {
        self.rounds
    }

    /// The requests, by arrival.
    pub fn requests(&self) -> &[Request]
        ensures same { result.now ≡ self.now.requests }
        ensures kept { IsCapture self.now }
    {
        &self.requests
    }

    /// What each of so many devices usually starts in a round at whose end one of its requests waits: the lower median, from 1 to 255.
    /// It fails only if there is no memory.
    pub fn usual_taken(&self, alloc: Global, devices: u32) -> Result<Vec<u32>, AllocError>
        ensures same { IfOk result (λ numbers. numbers.items ≡ map (usual_taken self.now) (range_with_len 0 devices)) }
        ensures within { IfOk result (λ numbers. All (λ n. (1 ≤ n) × (n ≤ MAX_OPENINGS)) numbers.items) }
    {
        let rows = device_rows(alloc, self.rounds, devices, &self.requests)?;
        let mut numbers = Vec::with_capacity(alloc, devices as usize)?;
        for device in 0..devices {
            numbers.push(self.usual_in(alloc, device, &rows)?)?;
        }
        Ok(numbers)
    }

    // What a device usually starts, by the rows of all.
    fn usual_in(&self, alloc: Global, device: u32, rows: &DeviceRows) -> Result<u32, AllocError>
        requires { (n : ℕ) × (device < n) × AreDeviceRows self.now.requests n self.now.rounds rows.now }
        ensures same { IfOk result (λ n. n ≡ usual_taken self.now device) }
        ensures some { IfOk result (λ n. 1 ≤ n) }
        ensures most { IfOk result (λ n. n ≤ MAX_OPENINGS) }
    {
        let arrivals = &rows.arrivals[device as usize];
        let sends = &rows.sends[device as usize];
        let waiting = waiting_row(alloc, self.rounds, &self.requests, device, arrivals, sends)?;
        let numbers = numbers_where(alloc, sends, &waiting)?;
        Ok(middle(&numbers))
    }

    /// The recording: these requests, and a cap for each longest run of rounds in which a device, an adapter or a link takes
    /// one number of requests that isn't its openings. In a round at whose end a request of a device waits, the device takes
    /// what it took, unless it is rated at its openings, as `rated` says by the device's number. An adapter of unknown openings, as `open` says by the adapter's number, takes what its devices take together, but no less than its openings;
    /// and 65,535 in each round if its devices have more openings than it. Everything else takes its openings, or what it took if
    /// that is more. In both lists a missing entry is false.
    ///
    /// # Errors
    ///
    /// `NoDevice` of the first request whose device isn't there, or else `BadName` of the first name that may not come next.
    /// `OutOfMemory` if no memory is left.
    pub fn recording(
        &self,
        alloc: Global,
        config: &Config,
        rated: &[bool],
        open: &[bool],
        spare: &[Vec<u32>],
        names: Vec<Name>,
    ) -> Result<Recording, CaptureFault>
        requires { config.now.lanes ≡ [] }
        ensures recording { IfOk result (λ r. r ≡ recorded_of config.now rated.now open.now spare.now names.items self.now) }
        ensures captured { IfOk result (λ r. (requests : List TimedRequest) → self.now ≡ in_rounds self.now.unit requests → r ≡ captured self.now.unit config.now rated.now open.now spare.now names.items requests) }
        // If an adapter's openings are unknown, only its devices limit.
        ensures never_limits { IfOk result (λ r. NeverLimits open.now r) }
        ensures ok { OnOk result (recording_fault config.now names.items self.now ≡ None) }
        ensures err { IfErr result (λ e. e ≢ OutOfMemory → recording_fault config.now names.items self.now ≡ Some e) }
    {
        recording_with(
            alloc,
            self.round,
            self.rounds,
            config,
            rated,
            open,
            spare,
            names,
            &self.requests,
        )
    }
}
