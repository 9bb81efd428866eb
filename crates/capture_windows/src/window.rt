//! One window, taken out of the attempts that are known.

ghost use Rattle.std.specs.Prelude.{◌≡◌, ◌≢◌, ◌+◌, ◌*◌, ◌<◌, ◌≤◌, ◌^◌, ◌++◌, ◌∷◌, [], All, IfErr, IfOk, IfSome, OnOk, length};
ghost use Rattle.capture_windows.specs.Attempts.{Attempt, requests_in, waiting_at};
ghost use Rattle.capture_windows.specs.Counted.{AreCounts};
ghost use Rattle.capture_windows.specs.Devices.{KnownDevice, going_on};
ghost use Rattle.capture_windows.specs.Windows.{AreRooms, IsFault, fault_of};

use crate::attempt::Attempt;
use crate::by_device::attempts_by_device;
use crate::device_window::{DeviceWindow, WindowRoom, device_window};
use crate::going_on::going_on;
use crate::requests::{requests_in, waiting_at};
use crate::time_span::{Rounds, TimeSpan};
use crate::window_fault::WindowFault;
use capture::TimedRequest;
use slots::{InFlight, Known, SlotsFault};
use std::alloc::{AllocError, Global};

/// What is known of a device when a window begins, and the depth that is given for it, if one is.
#[derive(Clone, Copy)]
pub struct KnownDevice {
    pub known: Known,
    pub depth: Option<u32>,
}

/// What is taken out for a window.
#[derive(Drop)]
pub struct Taken {
    /// The requests that were started in it, as they are known at its end: by arrival, and of one arrival in the order given.
    pub requests: Vec<TimedRequest>,
    /// Those that wait at its end, in the order given.
    pub waiting: Vec<TimedRequest>,
    /// What each device had room for.
    pub rooms: Vec<WindowRoom>,
    /// The attempts that concern later windows, in the order given: those that aren't started yet, and those that were started in
    /// this window and are in flight at its end. So a flight holds its slot at most to the end of the window after its own.
    pub going_on: Vec<Attempt>,
}

/// Takes a window out of all attempts that are known, of which those that were started before it are in flight when it begins. Its
/// rounds end when it ends. Device n is the one at place n of `devices`.
///
/// # Errors
///
/// `TooFew` of a device whose depth is below what was in flight at it; `TooMany` if there are 2^32 attempts or more.
pub fn take_window(
    alloc: Global,
    attempts: &[Attempt],
    span: TimeSpan,
    rounds: Rounds,
    devices: &[KnownDevice],
) -> Result<Taken, WindowFault>
    requires length { 1 ≤ rounds.length }
    requires count { rounds.count + 2 < 2 ^ 32 }
    requires end { span.until ≡ rounds.begin + rounds.count * rounds.length }
    requires devices { All (λ (a : Attempt). a.request.device < length devices.now) attempts.now }
    requires service { All (λ (k : KnownDevice). IfSome k.known.service (λ t. 1 ≤ t)) devices.now }
    ensures requests { IfOk result (λ taken. taken.requests.items ≡ requests_in span attempts.now) }
    ensures waiting { IfOk result (λ taken. taken.waiting.items ≡ waiting_at span.until attempts.now) }
    ensures rooms { IfOk result (λ taken. AreRooms span rounds attempts.now devices.now taken.rooms.items) }
    ensures going_on { IfOk result (λ taken. taken.going_on.items ≡ going_on span attempts.now) }
    ensures devices { IfOk result (λ taken. All (λ (a : Attempt). a.request.device < length devices.now) taken.going_on.items) }
    ensures err { IfErr result (IsFault span attempts.now devices.now) }
{
    if attempts.len() > u32::MAX as usize {
        return Err(WindowFault::TooMany);
    }
    let DeviceWindows { rooms, counts } = device_windows(alloc, attempts, span, rounds, devices)?;
    Ok(Taken {
        requests: requests_in(alloc, attempts, span)?,
        waiting: waiting_at(alloc, attempts, span.until)?,
        rooms,
        going_on: going_on(alloc, attempts, span, &counts)?,
    })
}

// What each device had room for, and how many were in flight at it at each time.
#[derive(Drop)]
struct DeviceWindows {
    rooms: Vec<WindowRoom>,
    counts: Vec<InFlight>,
}

impl DeviceWindows {
    // Of one device more.
    fn add(&mut self, found: DeviceWindow) -> Result<(), AllocError>
        ensures rooms { OnOk result (self.new.rooms.items ≡ self.old.rooms.items ++ found.room ∷ []) }
        ensures counts { OnOk result (self.new.counts.items ≡ self.old.counts.items ++ found.counts ∷ []) }
    {
        self.rooms.push(found.room)?;
        self.counts.push(found.counts)?;
        Ok(())
    }
}

fn device_windows(
    alloc: Global,
    attempts: &[Attempt],
    span: TimeSpan,
    rounds: Rounds,
    devices: &[KnownDevice],
) -> Result<DeviceWindows, WindowFault>
    requires few { length attempts.now < 2 ^ 32 }
    requires length { 1 ≤ rounds.length }
    requires count { rounds.count + 2 < 2 ^ 32 }
    requires end { span.until ≡ rounds.begin + rounds.count * rounds.length }
    requires devices { All (λ (a : Attempt). a.request.device < length devices.now) attempts.now }
    requires service { All (λ (k : KnownDevice). IfSome k.known.service (λ t. 1 ≤ t)) devices.now }
    ensures rooms { IfOk result (λ found. AreRooms span rounds attempts.now devices.now found.rooms.items) }
    ensures counts { IfOk result (λ found. AreCounts span attempts.now found.counts.items) }
    ensures each { IfOk result (λ found. length found.counts.items ≡ length devices.now) }
    ensures err { IfErr result (IsFault span attempts.now devices.now) }
{
    let own = attempts_by_device(alloc, attempts, devices.len())?;
    let mut windows = DeviceWindows {
        rooms: Vec::with_capacity(alloc, devices.len())?,
        counts: Vec::with_capacity(alloc, devices.len())?,
    };
    for (device, known) in devices.iter().enumerate() {
        match device_window(alloc, &own[device], span, rounds, known) {
            Ok(found) => windows.add(found)?,
            Err(fault) => return Err(fault_of(device, fault)),
        }
    }
    Ok(windows)
}

// A fault of a device.
fn fault_of(device: usize, fault: SlotsFault) -> WindowFault
    ensures { result ≡ fault_of device fault }
{
    match fault {
        SlotsFault::TooFew(number) => WindowFault::TooFew(device, number),
        SlotsFault::OutOfMemory => WindowFault::OutOfMemory,
    }
}
