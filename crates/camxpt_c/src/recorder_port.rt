//! A recorder with the bytes of the recording that it made last.

ghost use Rattle.std.specs.Result.{result_err};
ghost use Rattle.std.specs.Prelude.{◌≡◌, ◌⊎◌, ◌++◌, min, take, drop, nat_lt, true, None, is_some, length, IsSome, IfSome, IfOk, IfErr, MatchOption, MatchResult};
ghost use Rattle.recorder.specs.Faults.{cancel_fault, done_fault, start_fault};
ghost use Rattle.recorder.specs.Recorder.{recorder_fault};
ghost use Rattle.recorder.specs.Windows.{IsMaking};
ghost use Rattle.recorder.specs.declared.recorder.TheConstants.{MAX_DEVICES, MAX_DRIVERS};
ghost use Rattle.camxpt_c.specs.Keeping.{answer, arrival_noted, start_noted, done_noted, cancel_noted, one_device_more, one_driver_more, IsNoted, IsAdded, IsRead, IsTextOf, fresh_keeping, said, written};
ghost use Rattle.camxpt_c.specs.declared.codes.TheConstants.{OK, E_MEMORY, E_WINDOW};

use crate::codes::{E_LIMIT, E_MEMORY, E_WINDOW, NONE, OK, note_code};
use crate::record_shapes::CamxptWindow;
use recorder::{NoteFault, Recorder};
use recording_file::{Span, recording_bytes};
use std::alloc::{AllocError, Global};
use std::marker::Model;
use window_recordings::{CutFault, CutWindow, Ending};

/// A recorder, and the bytes of a window's recording until they are written.
#[derive(Drop)]
pub struct RecorderPort {
    recorder: Recorder,
    text: Option<Vec<u8>>,
}

impl Model for RecorderPort {
    ghost use Rattle.std.specs.Prelude.{option_map};
    ghost use Rattle.camxpt_c.specs.Keeping.{Keeping, IsKeeping};

    ghost Value = { Keeping };

    ghost view = { λ p. record { recorded = p.recorder; text = option_map (λ t. t.items) p.text } };

    ghost invariant = { λ p. IsKeeping (record { recorded = p.recorder; text = option_map (λ t. t.items) p.text }) };
}

impl RecorderPort {
    /// Nothing noted yet.
    pub fn new(
        alloc: Global,
        round: Option<Span>,
        window: u64,
        room: u32,
    ) -> Result<RecorderPort, AllocError>
        ensures { IfOk result (λ p. p ≡ fresh_keeping room) }
    {
        Ok(RecorderPort {
            recorder: Recorder::new(alloc, round, window, room)?,
            text: None,
        })
    }

    /// Adds a device: its name, and how many requests it serves at once, if that is known.
    pub fn add_device(&mut self, name: &[u8], depth: Option<u32>) -> i32
        ensures { IsAdded (nat_lt self.old.recorded.devices MAX_DEVICES) (one_device_more self.old) self.old self.new result }
    {
        match self.recorder.add_device(name, depth) {
            Ok(true) => OK,
            Ok(false) => E_LIMIT,
            Err(_) => E_MEMORY,
        }
    }

    /// Adds a driver by its name.
    pub fn add_driver(&mut self, name: &[u8]) -> i32
        ensures { IsAdded (nat_lt self.old.recorded.drivers MAX_DRIVERS) (one_driver_more self.old) self.old self.new result }
    {
        match self.recorder.add_driver(name) {
            Ok(true) => OK,
            Ok(false) => E_LIMIT,
            Err(_) => E_MEMORY,
        }
    }

    /// Notes that a request arrives.
    #[tactic(auto, unfolding(crate::specs::Keeping::IsNoted))]
    pub fn note_arrival(
        &mut self,
        id: u64,
        device: u32,
        driver: u8,
        priority: u32,
        time: u64,
    ) -> i32
        ensures { IsNoted (recorder_fault id device driver priority time self.old.recorded) (arrival_noted id device driver priority time self.old.recorded) self.old self.new result }
    {
        let noted = self
            .recorder
            .note_arrival(id, device, driver, priority, time);
        answer(noted)
    }

    /// Notes that an open request is started.
    #[tactic(auto, unfolding(crate::specs::Keeping::IsNoted))]
    pub fn note_start(&mut self, id: u64, time: u64) -> i32
        ensures { IsNoted (start_fault id time self.old.recorded.noted) (start_noted id time self.old.recorded) self.old self.new result }
    {
        answer(self.recorder.note_start(id, time))
    }

    /// Notes that an open request is done.
    #[tactic(auto, unfolding(crate::specs::Keeping::IsNoted))]
    pub fn note_done(&mut self, id: u64, time: u64) -> i32
        ensures { IsNoted (done_fault id time self.old.recorded.noted) (done_noted id time self.old.recorded) self.old self.new result }
    {
        answer(self.recorder.note_done(id, time))
    }

    /// Withdraws an open request that wasn't started.
    #[tactic(auto, unfolding(crate::specs::Keeping::IsNoted))]
    pub fn cancel(&mut self, id: u64) -> i32
        ensures { IsNoted (cancel_fault id self.old.recorded.noted) (cancel_noted id self.old.recorded) self.old self.new result }
    {
        answer(self.recorder.cancel(id))
    }

    /// Whether a window is over, or its recording waits to be written.
    pub fn is_due(&self) -> bool
        ensures text { IsSome self.now.text → result ≡ true }
        ensures window { IsSome self.now.recorded.window → result ≡ true }
        ensures cut { IsSome self.now.recorded.cut → result ≡ true }
    {
        self.text.is_some() || self.recorder.is_due()
    }

    /// Makes the next window and the bytes of its recording, if one is over and none wait to be written. True if there are some; there is
    /// no byte if nothing was started in the window. If no memory is left, nothing is lost, and the call can be made again.
    pub fn make(&mut self, alloc: Global, ending: Ending) -> Result<bool, i32>
        ensures making { MatchOption self.old.text (IsMaking (MatchResult result (λ _. ⊥) (λ code. code ≡ E_WINDOW)) self.old.recorded self.new.recorded) (λ _. self.new ≡ self.old) }
        ensures ok { IfOk result (λ is_there. is_there ≡ is_some self.new.text) }
        ensures err { IfErr result (λ code. (self.new.text ≡ None) × ((code ≡ E_MEMORY) ⊎ (code ≡ E_WINDOW))) }
    {
        if self.text.is_some() {
            return Ok(true);
        }
        match self.recorder.make_window(ending) {
            Ok(_) => {}
            Err(CutFault::OutOfMemory) => return Err(E_MEMORY),
            Err(_) => return Err(E_WINDOW),
        }
        let Some(window) = self.recorder.window() else {
            return Ok(false);
        };
        let Ok(text) = text_of(alloc, window) else {
            return Err(E_MEMORY);
        };
        self.text = Some(text);
        Ok(true)
    }

    /// What there is to say of the window that was made.
    pub fn window(&self) -> CamxptWindow
        ensures { IfSome self.now.text (λ text. MatchOption self.now.recorded.window ⊥ (λ w. IsTextOf w text × (result ≡ said w text))) }
    {
        let mut shape = CamxptWindow {
            number: 0,
            from_ns: 0,
            until_ns: 0,
            requests: 0,
            carried: 0,
            rounds: 0,
            size: 0,
            offset: 0,
        };
        if let Some(window) = self.recorder.window() {
            shape.number = window.number;
            shape.from_ns = window.from;
            shape.until_ns = window.until;
            shape.requests = window.requests as u64;
            shape.carried = window.carried;
            shape.rounds = window.rounds;
        }
        if let Some(text) = &self.text {
            shape.size = text.len();
        }
        shape
    }

    /// Copies the bytes from an offset on, as many as there are and there is room for, and gives how many these are.
    pub fn read(&self, offset: usize, buffer: &mut [u8], copied: &mut usize) -> i32
        ensures { IsRead self.now.text offset buffer.old copied.old buffer.new copied.new result }
    {
        let Some(text) = &self.text else {
            return NONE;
        };
        *copied = copy_from(text, offset, buffer);
        OK
    }

    /// Lets go of the window and of its bytes, which were written.
    pub fn written(&mut self)
        ensures { self.new ≡ written self.old }
    {
        self.text = None;
        self.recorder.drop_window();
    }
}

// The bytes of a window's recording: none if nothing was started in it.
fn text_of(alloc: Global, window: &CutWindow) -> Result<Vec<u8>, AllocError>
    ensures { IfOk result (λ text. IsTextOf window.now text.items) }
{
    match &window.recording {
        Some(recording) => recording_bytes(alloc, recording),
        None => Ok(Vec::new(alloc)),
    }
}

// Copies the bytes from an offset on to the start of the buffer.
fn copy_from(text: &[u8], offset: usize, buffer: &mut [u8]) -> usize
    ensures count { result ≡ min (length (drop offset text.now)) (length buffer.old) }
    ensures bytes { buffer.new ≡ take result (drop offset text.now) ++ drop result buffer.old }
{
    let rest = &text[offset.min(text.len())..];
    let count = rest.len().min(buffer.len());
    buffer[..count].copy_from_slice(&rest[..count]);
    count
}

// The number of what a note is answered with.
fn answer(noted: Result<(), NoteFault>) -> i32
    ensures { result ≡ answer (result_err noted) }
{
    match noted {
        Ok(()) => OK,
        Err(fault) => note_code(fault),
    }
}
