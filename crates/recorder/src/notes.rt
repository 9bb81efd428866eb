//! Notes of requests, in the order in which their arrivals were noted.

ghost use Rattle.std.specs.Prelude.{◌≡◌, ℕ, nat_le, true, [], None, map, length, slice_get, IfOk, OnOk, OnErr, MatchOption};
ghost use Rattle.std.specs.Option.{IsSomeAnd};
ghost use Rattle.std.specs.List.{count_by};
ghost use Rattle.std.specs.Result.{result_err};
ghost use Rattle.capture_windows.specs.declared.attempt.Attempt.{Attempt};
ghost use Rattle.capture_windows.specs.Devices.{going_on};
ghost use Rattle.recorder.specs.Notes.{AreApart, attempt_of, arrived, change, done_at, started_at, withdrawn, is_open, open_request, with_arrival, with_change};
ghost use Rattle.recorder.specs.Places.{IsOpenAt};
ghost use Rattle.recorder.specs.NoteWindows.{after_window};
ghost use Rattle.recorder.specs.Faults.{arrival_fault, cancel_fault, done_fault, falls, start_fault};

use crate::ids::Ids;
use crate::note_fault::NoteFault;
use crate::staying::replace_by;
use cam_types::MAX_PRIORITY;
use capture::TimedRequest;
use capture_windows::{Attempt, TimeSpan};
use std::alloc::{AllocError, Global};
use std::marker::Model;

/// By how many nanoseconds a time may lie before the latest one.
pub const SLACK: u64 = 1_000_000_000;

/// Notes of requests, in the order in which their arrivals were noted.
#[derive(Drop)]
pub struct Notes {
    devices: u32,
    drivers: u32,
    time: u64,
    ids: Ids,
    attempts: Vec<Attempt>,
}

impl Model for Notes {
    ghost use Rattle.std.specs.Prelude.{vec_capacity};
    ghost use Rattle.recorder.specs.Notes.{Noted};
    ghost use Rattle.recorder.specs.Places.{notes_of, AreNotes};

    ghost Value = { Noted };

    ghost view = { λ a. record { devices = a.devices; drivers = a.drivers; room = a.ids.room; time = a.time; notes = notes_of a.ids.ids a.attempts.items } };

    ghost invariant = { λ a. AreNotes a.ids a.attempts.items (vec_capacity a.attempts) };
}

impl Notes {
    /// No notes yet. The numbers of devices and drivers are below these, and at most so many requests are kept until a window is taken.
    /// No other call takes memory.
    pub fn with_capacity(
        alloc: Global,
        devices: u32,
        drivers: u32,
        room: u32,
    ) -> Result<Notes, AllocError>
        ensures { IfOk result (λ notes. notes ≡ record { devices = devices; drivers = drivers; room = room; time = 0; notes = [] }) }
    {
        let ids = Ids::with_capacity(alloc, room)?;
        let attempts = Vec::with_capacity(alloc, room as usize)?;
        Ok(Notes {
            devices,
            drivers,
            time: 0,
            ids,
            attempts,
        })
    }

    /// What is known of each request, in the order in which the arrivals were noted. One that was withdrawn isn't taken and has no slot.
    pub fn attempts(&self) -> &[Attempt]
        ensures attempts { result.now ≡ map attempt_of self.now.notes }
        ensures apart { AreApart self.now.notes }
    {
        &self.attempts
    }

    /// The latest time that was noted; 0 before the first.
    pub fn time(&self) -> u64
        ensures { result ≡ self.now.time }
    {
        self.time
    }

    /// How many requests are open: neither done nor withdrawn. It looks through all.
    pub fn open_count(&self) -> usize
        ensures { result ≡ count_by (λ n. is_open n.attempt) self.now.notes }
    {
        open_ones(&self.attempts)
    }

    /// Notes that a request arrives. Its id is its own until it is done or withdrawn.
    ///
    /// # Errors
    ///
    /// The first of `NoDevice`, `NoDriver`, `NoPriority`, `TimeFalls`, `AlreadyOpen` and `Full` that holds. Nothing has changed then.
    pub fn note_arrival(
        &mut self,
        id: u64,
        device: u32,
        driver: u8,
        priority: u32,
        time: u64,
    ) -> Result<(), NoteFault>
        ensures fault { result_err result ≡ arrival_fault id device driver priority time self.old }
        ensures ok { OnOk result (self.new ≡ with_arrival id (arrived device driver priority time) self.old) }
        ensures err { OnErr result (self.new ≡ self.old) }
    {
        if let Some(fault) = self.arrival_fault(id, device, driver, priority, time) {
            return Err(fault);
        }
        self.ids.push(id);
        self.attempts.push_reserved(Attempt {
            request: TimedRequest {
                arrival: time,
                started: None,
                retried: None,
                completed: None,
                driver,
                device,
                priority,
            },
            is_taken: true,
            has_slot: true,
            number: 0,
        });
        self.time = self.time.max(time);
        Ok(())
    }

    /// Notes that the open request of an id is started.
    ///
    /// # Errors
    ///
    /// The first of `TimeFalls`, `NotOpen`, `AlreadyStarted` and `StartBeforeArrival` that holds. Nothing has changed then.
    pub fn note_start(&mut self, id: u64, time: u64) -> Result<(), NoteFault>
        ensures fault { result_err result ≡ start_fault id time self.old }
        ensures ok { OnOk result (self.new ≡ with_change id (started_at time) time self.old) }
        ensures err { OnErr result (self.new ≡ self.old) }
    {
        if self.falls(time) {
            return Err(NoteFault::TimeFalls);
        }
        let Some((place, attempt)) = self.open_of(id) else {
            return Err(NoteFault::NotOpen);
        };
        if attempt.request.started.is_some() {
            return Err(NoteFault::AlreadyStarted);
        }
        if time < attempt.request.arrival {
            return Err(NoteFault::StartBeforeArrival);
        }
        let started = Some(time);
        let request = TimedRequest {
            started,
            ..attempt.request
        };
        self.change(place, Attempt { request, ..attempt }, time);
        Ok(())
    }

    /// Notes that the open request of an id is done, which was started. Its id may be used again.
    ///
    /// # Errors
    ///
    /// The first of `TimeFalls`, `NotOpen`, `NotStarted` and `DoneBeforeStart` that holds. Nothing has changed then.
    pub fn note_done(&mut self, id: u64, time: u64) -> Result<(), NoteFault>
        ensures fault { result_err result ≡ done_fault id time self.old }
        ensures ok { OnOk result (self.new ≡ with_change id (done_at time) time self.old) }
        ensures err { OnErr result (self.new ≡ self.old) }
    {
        if self.falls(time) {
            return Err(NoteFault::TimeFalls);
        }
        let Some((place, attempt)) = self.open_of(id) else {
            return Err(NoteFault::NotOpen);
        };
        let Some(start) = attempt.request.started else {
            return Err(NoteFault::NotStarted);
        };
        if time < start {
            return Err(NoteFault::DoneBeforeStart);
        }
        let completed = Some(time);
        let request = TimedRequest {
            completed,
            ..attempt.request
        };
        self.change(place, Attempt { request, ..attempt }, time);
        Ok(())
    }

    /// Withdraws the open request of an id, which wasn't started: no window has it. Its id may be used again, and its room is free once a
    /// window was taken.
    ///
    /// # Errors
    ///
    /// The first of `NotOpen` and `AlreadyStarted` that holds. Nothing has changed then.
    pub fn cancel(&mut self, id: u64) -> Result<(), NoteFault>
        ensures fault { result_err result ≡ cancel_fault id self.old }
        ensures ok { OnOk result (self.new ≡ record self.old { notes = change id withdrawn self.old.notes }) }
        ensures err { OnErr result (self.new ≡ self.old) }
    {
        let Some((place, attempt)) = self.open_of(id) else {
            return Err(NoteFault::NotOpen);
        };
        if attempt.request.started.is_some() {
            return Err(NoteFault::AlreadyStarted);
        }
        let attempt = Attempt {
            is_taken: false,
            has_slot: false,
            ..attempt
        };
        self.change(place, attempt, 0);
        Ok(())
    }

    /// Keeps those that go on after a window that was made of all attempts, with their numbers there, and no others. One that is still in
    /// flight goes on for one window after that in which it was started; from then on its id isn't open.
    pub fn take_back(&mut self, span: TimeSpan, attempts: &[Attempt])
        requires { attempts.now ≡ going_on span (map attempt_of self.old.notes) }
        ensures { self.new ≡ after_window span self.old }
    {
        self.ids.keep_staying(&self.attempts, span);
        replace_by(&mut self.attempts, attempts);
    }

    // Whether a time lies more than a second before the latest one.
    fn falls(&self, time: u64) -> bool
        ensures { result ≡ falls time self.now }
    {
        time.saturating_add(SLACK) < self.time
    }

    // Whether there is no room for one more request.
    fn is_full(&self) -> bool
        ensures { result ≡ nat_le self.now.room (length self.now.notes) }
    {
        self.ids.is_full()
    }

    // Why an arrival isn't noted.
    fn arrival_fault(
        &self,
        id: u64,
        device: u32,
        driver: u8,
        priority: u32,
        time: u64,
    ) -> Option<NoteFault>
        ensures { result ≡ arrival_fault id device driver priority time self.now }
    {
        if device >= self.devices {
            return Some(NoteFault::NoDevice);
        }
        if u32::from(driver) >= self.drivers {
            return Some(NoteFault::NoDriver);
        }
        if priority > MAX_PRIORITY {
            return Some(NoteFault::NoPriority);
        }
        if self.falls(time) {
            return Some(NoteFault::TimeFalls);
        }
        if self.open_of(id).is_some() {
            return Some(NoteFault::AlreadyOpen);
        }
        if self.is_full() {
            return Some(NoteFault::Full);
        }
        None
    }

    // The open request of an id, and its place.
    fn open_of(&self, id: u64) -> Option<(usize, Attempt)>
        ensures { MatchOption result (open_request id self.now.notes ≡ None) (λ p. IsOpenAt id self.now.notes p.0 p.1) }
    {
        let place = self.ids.newest(id)?;
        let attempt = self.attempts[place];
        if is_open(&attempt) {
            Some((place, attempt))
        } else {
            None
        }
    }

    // Says this of the open request at a place, at a time.
    fn change(&mut self, place: usize, attempt: Attempt, time: u64)
        requires { IsSomeAnd (slice_get self.old.notes place) (λ n. is_open n.attempt ≡ true) }
        ensures { (id : ℕ) (a : Attempt) (f : Attempt → Attempt) → IsOpenAt id self.old.notes place a → attempt ≡ f a → self.new ≡ with_change id f time self.old }
    {
        self.attempts[place] = attempt;
        self.time = time.max(self.time);
    }
}

// Whether a request was neither done nor withdrawn.
fn is_open(attempt: &Attempt) -> bool
    ensures { result ≡ is_open attempt.now }
{
    attempt.is_taken && attempt.request.completed.is_none()
}

// How many are open.
fn open_ones(attempts: &[Attempt]) -> usize
    ensures { result ≡ count_by is_open attempts.now }
{
    attempts.iter().filter(|attempt| is_open(attempt)).count()
}
