//! What a device had room for in a window.

ghost use Rattle.std.specs.Prelude.{◌≡◌, ◌≢◌, ◌+◌, ◌*◌, ◌<◌, ◌≤◌, ◌^◌, ℕ, List, Err, IfErr, IfOk, IfSome, length};
ghost use Rattle.slots.specs.Windowed.{slots_in_window};
ghost use Rattle.slots.specs.declared.slots_fault.SlotsFault.TheVariants.{OutOfMemory};
ghost use Rattle.capture_windows.specs.Devices.{IsRoom, attempts_of, earlier_flights, own_flights};
ghost use Rattle.capture_windows.specs.Attempts.{Attempt};
ghost use Rattle.capture_windows.specs.Counted.{IsCount};

use crate::attempt::Attempt;
use crate::device_flights::{earlier_flights, own_flights, waits_in};
use crate::spare_in_window::spare_in_window;
use crate::time_span::{Rounds, TimeSpan};
use crate::window::KnownDevice;
use slots::{InFlight, SlotsFault, Spare, WindowSlots, flights_in_window, slots_in_window};
use std::alloc::Global;

/// What a device had room for in a window.
#[derive(Drop)]
pub struct WindowRoom {
    /// Its slots.
    pub slots: WindowSlots,
    /// The starts that had room while requests waited, in the window's rounds. None as long as no service time is known.
    pub spare: Option<Spare>,
}

/// The same, with how many were in flight at each time.
#[derive(Drop)]
pub(crate) struct DeviceWindow {
    pub room: WindowRoom,
    pub counts: InFlight,
}

/// The window of a device with these attempts, of what was known of it before. It fails if its depth is below what was in flight, or
/// if there is no memory.
pub(crate) fn device_window(
    alloc: Global,
    own: &[Attempt],
    span: TimeSpan,
    rounds: Rounds,
    known: &KnownDevice,
) -> Result<DeviceWindow, SlotsFault>
    requires few { length own.now < 2 ^ 32 }
    requires length { 1 ≤ rounds.length }
    requires count { rounds.count + 2 < 2 ^ 32 }
    requires end { span.until ≡ rounds.begin + rounds.count * rounds.length }
    requires service { IfSome known.now.known.service (λ t. 1 ≤ t) }
    ensures room { IfOk result (λ found. (attempts : List Attempt) (device : ℕ) → own.now ≡ attempts_of device attempts → IsRoom span rounds attempts device known.now found.room) }
    ensures counts { IfOk result (λ found. (attempts : List Attempt) (device : ℕ) → own.now ≡ attempts_of device attempts → IsCount span attempts device found.counts) }
    ensures err { IfErr result (λ e. e ≢ OutOfMemory → slots_in_window (earlier_flights span own.now) (own_flights span own.now) known.now.known known.now.depth ≡ Err e) }
{
    let earlier = earlier_flights(alloc, own, span)?;
    let started = own_flights(alloc, own, span)?;
    let slots = slots_in_window(alloc, &earlier, &started, known.known, known.depth)?;
    let flights = flights_in_window(alloc, &earlier, &started)?;
    let waits = waits_in(alloc, own, span, rounds.begin)?;
    let spare = spare_in_window(alloc, &flights, &waits, &slots, rounds)?;
    let counts = InFlight::of(alloc, &flights)?;
    Ok(DeviceWindow {
        room: WindowRoom { slots, spare },
        counts,
    })
}
