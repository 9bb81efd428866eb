//! The windows of a capture, taken one after the other.

ghost use Rattle.std.specs.Prelude.{◌≡◌, ◌≤◌, All, IfErr, IfSome, IfOk, OnErr, OnOk, IsTrue, length};
ghost use Rattle.capture_windows.specs.Attempts.{Attempt};
ghost use Rattle.capture_windows.specs.Progress.{AreKnownAfter, are_known};
ghost use Rattle.capture_windows.specs.Devices.{KnownDevice as Device, WindowRoom as TheRoom};

use crate::attempt::Attempt;
use crate::device_window::WindowRoom;
use crate::time_span::{Rounds, TimeSpan};
use crate::window::{KnownDevice, Taken, take_window};
use crate::window_fault::WindowFault;
use slots::Known;
use std::alloc::{AllocError, Global};
use std::marker::Model;

/// The most rounds that a window has: one fewer than a recording, in which who still waits at its end can be put into one round more.
pub const MAX_WINDOW_ROUNDS: u32 = 65_534;

/// A window that was taken.
#[derive(Drop)]
pub struct Window {
    /// From when to when something was started in it.
    pub span: TimeSpan,
    /// Its rounds.
    pub rounds: Rounds,
    /// What was taken for it.
    pub taken: Taken,
}

/// How far windows were taken, and what is known of the devices.
#[derive(Drop)]
pub struct Windows {
    from: u64,
    begin: u64,
    length: u64,
    devices: Vec<KnownDevice>,
}

impl Model for Windows {
    ghost use Rattle.capture_windows.specs.Progress.{Progress, IsProgress};

    ghost Value = { Progress };

    ghost view = { λ w. record { from = w.from; begin = w.begin; length = w.length; devices = w.devices.items } };

    ghost invariant = { λ w. IsProgress (record { from = w.from; begin = w.begin; length = w.length; devices = w.devices.items }) };
}

impl Windows {
    ghost use Rattle.std.specs.Prelude.{◌≡◌, ◌+◌, ◌*◌, ◌≤◌, ◌++◌, ◌∷◌, [], None, IfOk, OnErr, OnOk, length};
    ghost use Rattle.capture_windows.specs.Attempts.{requests_in, waiting_at};
    ghost use Rattle.capture_windows.specs.Devices.{going_on};
    ghost use Rattle.capture_windows.specs.Windows.{AreRooms};
    ghost use Rattle.capture_windows.specs.Progress.{AreKnownAfter, CanBeNext, IsNextFault, are_known, next_span};

    /// None was taken yet. The first one has all that was started before its end, and its round 1 begins at that time. Rounds have so many
    /// nanoseconds.
    pub fn new(alloc: Global, begin: u64, length: u64) -> Windows
        requires { 1 ≤ length }
        ensures { result ≡ record { from = 0; begin = begin; length = length; devices = [] } }
    {
        Windows {
            from: 0,
            begin,
            length,
            devices: Vec::new(alloc),
        }
    }

    /// Adds a device, with its depth if that is given.
    pub fn add_device(&mut self, depth: Option<u32>) -> Result<(), AllocError>
        ensures ok { OnOk result (self.new ≡ record self.old { devices = self.old.devices ++ record { known = record { in_flight = 0; service = None }; depth = depth } ∷ [] }) }
        ensures err { OnErr result (self.new ≡ self.old) }
    {
        self.devices.push(KnownDevice {
            known: Known {
                in_flight: 0,
                service: None,
            },
            depth,
        })?;
        Ok(())
    }

    /// How many devices there are.
    pub fn devices(&self) -> usize
        ensures { result ≡ length self.now.devices }
    {
        self.devices.len()
    }

    /// When round 1 of the next window begins.
    pub fn begin(&self) -> u64
        ensures { result ≡ self.now.begin }
    {
        self.begin
    }

    /// Takes the next window, of so many rounds.
    ///
    /// # Errors
    ///
    /// `TooLong` if the window has no round or more than [`MAX_WINDOW_ROUNDS`], or ends after the last time there is; `NoDevice` if an attempt
    /// is of a device that wasn't added; `TooFew` of the first device whose depth is below what was in flight at it; `TooMany` if there are
    /// 2^32 attempts or more. After an `Err` nothing was taken.
    pub fn next(
        &mut self,
        alloc: Global,
        attempts: &[Attempt],
        count: u32,
    ) -> Result<Window, WindowFault>
        ensures can_be_next { IfOk result (λ _. CanBeNext self.old count) }
        ensures are_known { IfOk result (λ _. IsTrue (are_known (length self.old.devices) attempts.now)) }
        ensures span { IfOk result (λ w. w.span ≡ next_span self.old count) }
        ensures rounds { IfOk result (λ w. w.rounds ≡ record { begin = self.old.begin; length = self.old.length; count = count }) }
        ensures requests { IfOk result (λ w. w.taken.requests.items ≡ requests_in w.span attempts.now) }
        ensures waiting { IfOk result (λ w. w.taken.waiting.items ≡ waiting_at w.span.until attempts.now) }
        ensures rooms { IfOk result (λ w. AreRooms w.span w.rounds attempts.now self.old.devices w.taken.rooms.items) }
        ensures going_on { IfOk result (λ w. w.taken.going_on.items ≡ going_on w.span attempts.now) }
        ensures from { OnOk result (self.new.from ≡ self.old.begin + count * self.old.length) }
        ensures begin { OnOk result (self.new.begin ≡ self.new.from) }
        ensures length { self.new.length ≡ self.old.length }
        ensures devices { length self.new.devices ≡ length self.old.devices }
        ensures known { IfOk result (λ w. AreKnownAfter self.old.devices w.taken.rooms.items self.new.devices) }
        ensures fault { IfErr result (IsNextFault self.old attempts.now count) }
        ensures err { OnErr result (self.new ≡ self.old) }
    {
        if count == 0 || count > MAX_WINDOW_ROUNDS {
            return Err(WindowFault::TooLong);
        }
        if !are_known(attempts, self.devices.len()) {
            return Err(WindowFault::NoDevice);
        }
        let Some(time) = u64::from(count).checked_mul(self.length) else {
            return Err(WindowFault::TooLong);
        };
        let Some(until) = self.begin.checked_add(time) else {
            return Err(WindowFault::TooLong);
        };
        let span = TimeSpan {
            from: self.from,
            until,
        };
        let rounds = Rounds {
            begin: self.begin,
            length: self.length,
            count,
        };
        let taken = take_window(alloc, attempts, span, rounds, &self.devices)?;
        learn(&mut self.devices, &taken.rooms);
        self.from = until;
        self.begin = until;
        Ok(Window {
            span,
            rounds,
            taken,
        })
    }
}

// Whether each attempt is of one of so many devices.
fn are_known(attempts: &[Attempt], devices: usize) -> bool
    ensures { result ≡ are_known devices attempts.now }
{
    attempts
        .iter()
        .all(|attempt| (attempt.request.device as usize) < devices)
}

// Keeps what a window shows of the devices.
fn learn(devices: &mut [KnownDevice], rooms: &[WindowRoom])
    requires size { length rooms.now ≡ length devices.old }
    requires service { All (λ (r : TheRoom). IfSome r.slots.service (λ t. 1 ≤ t)) rooms.now }
    requires before { All (λ (k : Device). IfSome k.known.service (λ t. 1 ≤ t)) devices.old }
    ensures size { length devices.new ≡ length devices.old }
    ensures known { AreKnownAfter devices.old rooms.now devices.new }
    ensures service { All (λ (k : Device). IfSome k.known.service (λ t. 1 ≤ t)) devices.new }
{
    for number in 0..devices.len() {
        let slots = &rooms[number].slots;
        devices[number].known = Known {
            in_flight: slots.in_flight,
            service: slots.service,
        };
    }
}
