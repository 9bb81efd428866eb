//! Records what a driver notes, window by window.

ghost use Rattle.std.specs.Prelude.{◌≡◌, ◌≢◌, ◌+◌, nat_lt, if◌then◌else◌, None, true, is_some, option_copied, IsSome, IfOk, OnOk, OnErr, MatchOption, MatchResult};
ghost use Rattle.std.specs.Result.{result_err};
ghost use Rattle.recorder.specs.Notes.{arrived, change, done_at, started_at, withdrawn, with_arrival, with_change};
ghost use Rattle.recorder.specs.Faults.{cancel_fault, done_fault, start_fault};
ghost use Rattle.recorder.specs.Recorder.{nothing_noted, recorder_fault};
ghost use Rattle.recorder.specs.Windows.{IsCutOff, IsKept, IsMaking};
ghost use Rattle.window_recordings.specs.declared.cut_fault.CutFault.TheVariants.{OutOfMemory};
ghost use Rattle.recorder.specs.declared.recorder.TheConstants.{MAX_DEVICES, MAX_DRIVERS};

use crate::note_fault::NoteFault;
use crate::notes::{Notes, SLACK};
use recording_file::Span;
use std::alloc::{AllocError, Global};
use std::marker::Model;
use window_recordings::{Cut, CutFault, CutWindow, Cutter, Ending, Layout, Names, record};

/// The most devices that a recorder has: as many as a recording.
pub const MAX_DEVICES: u32 = 32;

/// The most drivers that it has.
pub const MAX_DRIVERS: u32 = 256;

/// Notes of requests, of which the recordings of windows are made, one after the other. What is noted takes no memory; a window does while
/// its recording is made.
#[derive(Drop)]
pub struct Recorder {
    alloc: Global,
    notes: Notes,
    layout: Layout,
    devices: Vec<Vec<u8>>,
    drivers: Vec<Vec<u8>>,
    cutter: Cutter,
    // From when on there is something to do. 0 before the first arrival.
    due: u64,
    // A window that is over and has no recording yet.
    cut: Option<Cut>,
    // One that has.
    window: Option<CutWindow>,
}

impl Model for Recorder {
    ghost use Rattle.std.specs.Prelude.{length};
    ghost use Rattle.recorder.specs.Recorder.{Recorded};

    ghost Value = { Recorded };

    ghost view = { λ r. record { devices = length r.devices.items; drivers = length r.drivers.items; noted = r.notes; cut = r.cut; window = r.window } };
}

impl Recorder {
    /// Nothing noted yet. A window has so many nanoseconds, but a whole number of rounds; a round is as long as is given, or as is usual for
    /// the first window. At most `room` requests are kept until a window is over.
    pub fn new(
        alloc: Global,
        round: Option<Span>,
        window: u64,
        room: u32,
    ) -> Result<Recorder, AllocError>
        ensures { IfOk result (λ r. r ≡ nothing_noted room) }
    {
        Ok(Recorder {
            alloc,
            notes: Notes::with_capacity(alloc, MAX_DEVICES, MAX_DRIVERS, room)?,
            layout: Layout {
                hosts: Vec::new(alloc),
                ratings: Vec::new(alloc),
                depths: Vec::new(alloc),
            },
            devices: Vec::new(alloc),
            drivers: Vec::new(alloc),
            cutter: Cutter::new(round, window),
            due: 0,
            cut: None,
            window: None,
        })
    }

    /// Adds a device: its name, and how many requests it serves at once, if that is known. False if there are 32.
    pub fn add_device(&mut self, name: &[u8], depth: Option<u32>) -> Result<bool, AllocError>
        ensures some { IfOk result (λ is_new. is_new ≡ nat_lt self.old.devices MAX_DEVICES) }
        ensures ok { IfOk result (λ is_new. self.new ≡ record self.old { devices = self.old.devices + (if is_new then 1 else 0) }) }
        ensures err { OnErr result (self.new ≡ self.old) }
    {
        if self.devices.len() >= MAX_DEVICES as usize {
            return Ok(false);
        }
        if let Some(depth) = depth {
            let name = String::from_utf8_lossy(self.alloc, name)?;
            self.layout.depths.push((name, depth))?;
        }
        self.devices.push(Vec::from_slice(self.alloc, name)?)?;
        Ok(true)
    }

    /// Adds a driver by its name. False if there are 256.
    pub fn add_driver(&mut self, name: &[u8]) -> Result<bool, AllocError>
        ensures some { IfOk result (λ is_new. is_new ≡ nat_lt self.old.drivers MAX_DRIVERS) }
        ensures ok { IfOk result (λ is_new. self.new ≡ record self.old { drivers = self.old.drivers + (if is_new then 1 else 0) }) }
        ensures err { OnErr result (self.new ≡ self.old) }
    {
        if self.drivers.len() >= MAX_DRIVERS as usize {
            return Ok(false);
        }
        self.drivers.push(Vec::from_slice(self.alloc, name)?)?;
        Ok(true)
    }

    /// Notes that a request arrives at the device and from the driver of these numbers, from 0 on in the order in which they were added.
    ///
    /// # Errors
    ///
    /// The first of `NoDevice`, `NoDriver`, `NoPriority`, `TimeFalls`, `AlreadyOpen` and `Full` that holds. Nothing has changed then.
    pub fn note_arrival(
        &mut self,
        id: u64,
        device: u32,
        driver: u8,
        priority: u32,
        time: u64,
    ) -> Result<(), NoteFault>
        ensures fault { result_err result ≡ recorder_fault id device driver priority time self.old }
        ensures ok { OnOk result (self.new ≡ record self.old { noted = with_arrival id (arrived device driver priority time) self.old.noted }) }
        ensures err { OnErr result (self.new ≡ self.old) }
    {
        if self.devices.len() <= device as usize {
            return Err(NoteFault::NoDevice);
        }
        if self.drivers.len() <= usize::from(driver) {
            return Err(NoteFault::NoDriver);
        }
        self.notes.note_arrival(id, device, driver, priority, time)?;
        if self.due == 0 {
            self.due = over(&self.cutter, time);
        }
        Ok(())
    }

    /// Notes that the open request of an id is started.
    ///
    /// # Errors
    ///
    /// The first of `TimeFalls`, `NotOpen`, `AlreadyStarted` and `StartBeforeArrival` that holds. Nothing has changed then.
    pub fn note_start(&mut self, id: u64, time: u64) -> Result<(), NoteFault>
        ensures fault { result_err result ≡ start_fault id time self.old.noted }
        ensures ok { OnOk result (self.new ≡ record self.old { noted = with_change id (started_at time) time self.old.noted }) }
        ensures err { OnErr result (self.new ≡ self.old) }
    {
        self.notes.note_start(id, time)
    }

    /// Notes that the open request of an id is done. One that was started before the last window began isn't open any more.
    ///
    /// # Errors
    ///
    /// The first of `TimeFalls`, `NotOpen`, `NotStarted` and `DoneBeforeStart` that holds. Nothing has changed then.
    pub fn note_done(&mut self, id: u64, time: u64) -> Result<(), NoteFault>
        ensures fault { result_err result ≡ done_fault id time self.old.noted }
        ensures ok { OnOk result (self.new ≡ record self.old { noted = with_change id (done_at time) time self.old.noted }) }
        ensures err { OnErr result (self.new ≡ self.old) }
    {
        self.notes.note_done(id, time)
    }

    /// Withdraws the open request of an id, which wasn't started.
    ///
    /// # Errors
    ///
    /// The first of `NotOpen` and `AlreadyStarted` that holds. Nothing has changed then.
    pub fn cancel(&mut self, id: u64) -> Result<(), NoteFault>
        ensures fault { result_err result ≡ cancel_fault id self.old.noted }
        ensures ok { OnOk result (self.new ≡ record self.old { noted = record self.old.noted { notes = change id withdrawn self.old.noted.notes } }) }
        ensures err { OnErr result (self.new ≡ self.old) }
    {
        self.notes.cancel(id)
    }

    /// Whether a window is over: a second has passed since its end, or its recording waits to be taken.
    pub fn is_due(&self) -> bool
        ensures window { IsSome self.now.window → result ≡ true }
        ensures cut { IsSome self.now.cut → result ≡ true }
    {
        self.window.is_some()
            || self.cut.is_some()
            || (self.due > 0 && self.notes.time() >= self.due)
    }

    /// Makes the next window, if one is over: with `Whole`, a second after its end; with `Before`, as far as nothing more can be noted of it,
    /// which makes room; with `LastStart` up to the last start. True if [`Recorder::window`] has one.
    ///
    /// # Errors
    ///
    /// Why there is no window, or no recording of one. If no memory is left, nothing is lost, and the call can be made again; at another
    /// fault its requests are.
    pub fn make_window(&mut self, ending: Ending) -> Result<bool, CutFault>
        ensures made { IfOk result (λ is_made. is_made ≡ is_some self.new.window) }
        ensures making { IsMaking (MatchResult result (λ _. ⊥) (λ e. e ≢ OutOfMemory)) self.old self.new }
    {
        if self.window.is_some() {
            return Ok(true);
        }
        if self.cut.is_none() {
            self.cut(ending)?;
        }
        match self.cut.take() {
            Some(cut) => self.record(cut),
            None => Ok(false),
        }
    }

    /// The window that was made.
    pub fn window(&self) -> Option<&CutWindow>
        ensures { option_copied result ≡ self.now.window }
    {
        self.window.as_ref()
    }

    /// Lets go of the window that was made.
    pub fn drop_window(&mut self)
        ensures { self.new ≡ record self.old { window = None } }
    {
        self.window = None;
    }

    // Makes the recording of a cut.
    fn record(&mut self, cut: Cut) -> Result<bool, CutFault>
        requires cut { self.old.cut ≡ None }
        requires window { self.old.window ≡ None }
        ensures made { IfOk result (λ is_made. is_made ≡ is_some self.new.window) }
        ensures kept { IsKept (MatchResult result (λ _. ⊥) (λ e. e ≢ OutOfMemory)) cut self.new }
        ensures rest { self.new ≡ record self.old { cut = self.new.cut; window = self.new.window } }
    {
        let names = Names {
            devices: &self.devices,
            drivers: &self.drivers,
        };
        match record(self.alloc, &self.layout, names, None, &cut) {
            Ok(window) => {
                self.window = Some(window);
                Ok(true)
            }
            Err(CutFault::OutOfMemory) => {
                self.cut = Some(cut);
                Err(CutFault::OutOfMemory)
            }
            Err(fault) => Err(fault),
        }
    }

    // Cuts off the next window, if one is over, or it ends sooner.
    fn cut(&mut self, ending: Ending) -> Result<(), CutFault>
        requires { self.old.cut ≡ None }
        ensures cut { MatchOption self.new.cut (self.new.noted ≡ self.old.noted) (λ cut. IsCutOff self.old.noted cut self.new.noted) }
        ensures rest { self.new ≡ record self.old { noted = self.new.noted; cut = self.new.cut } }
        ensures err { OnErr result (self.new ≡ self.old) }
    {
        let alloc = self.alloc;
        let attempts = self.notes.attempts();
        self.cutter.set_begin(alloc, attempts, self.devices.len())?;
        let Some(begin) = self.cutter.begin() else {
            self.due = over(&self.cutter, self.notes.time());
            return Ok(());
        };
        self.due = over(&self.cutter, begin);
        if let Ending::Whole = ending
            && self.notes.time() < self.due
        {
            return Ok(());
        }
        let ending = match ending {
            Ending::Before(_) => Ending::Before(self.notes.time().saturating_sub(SLACK)),
            other => other,
        };
        let names = Names {
            devices: &self.devices,
            drivers: &self.drivers,
        };
        let layout = &self.layout;
        if let Some(cut) = self.cutter.next(alloc, layout, names, attempts, ending)? {
            self.notes
                .take_back(cut.window.span, &cut.window.taken.going_on);
            self.due = over(&self.cutter, cut.window.span.until);
            self.cut = Some(cut);
        }
        Ok(())
    }
}

// When a window that begins at a time is surely over: a second after its end.
fn over(cutter: &Cutter, begin: u64) -> u64 {
    cutter.end_of(begin).saturating_add(SLACK)
}
