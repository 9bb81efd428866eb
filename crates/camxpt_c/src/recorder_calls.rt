//! The calls of a recorder.

ghost use Rattle.std.specs.Prelude.{ℕ, ◌≡◌, ◌⊎◌, None, Some, nat_lt, MatchOption, MatchResult, IfOk, IfErr};
ghost use Rattle.recorder.specs.Faults.{cancel_fault, done_fault, start_fault};
ghost use Rattle.recorder.specs.Recorder.{recorder_fault};
ghost use Rattle.recorder.specs.declared.recorder.TheConstants.{MAX_DEVICES, MAX_DRIVERS};
ghost use Rattle.camxpt_c.specs.Keeping.{arrival_noted, start_noted, done_noted, cancel_noted, one_device_more, one_driver_more, IsNoted, IsAdded, IsRead, written};
ghost use Rattle.camxpt_c.specs.RecorderCalls.{ending_of, recorder_opening_fault, IsRecorderOpening, IsRecorderCall, IsMade, IsDueAnswer};
ghost use Rattle.camxpt_c.specs.declared.codes.TheConstants.{OK, E_CLOSED, E_MEMORY};

use crate::codes::{E_CLOSED, E_LIMIT, E_MEMORY, E_OPEN, E_UNIT, NONE, OK};
use crate::record_shapes::{CamxptSpan, CamxptWindow, SECONDS, span_of};
use crate::recorder_handle::CamXptRecorder;
use crate::recorder_port::RecorderPort;
use std::alloc::Global;
use window_recordings::Ending;

/// The most requests that a recorder keeps until a window is over.
pub const MAX_ROOM: u32 = 16_777_216;

/// How a window ends: as far as makes room, with the last start, or, at any other number, with its last round.
pub const BEFORE: u32 = 1;

pub const LAST_START: u32 = 2;

/// Opens a closed handle: no devices, no drivers and no notes. A round is that long, or as is usual for the first window if the count is 0.
/// A window has so many nanoseconds, and at most `room` requests are kept until one is over.
#[unsafe(no_mangle)]
pub extern "C" fn camxpt_raw_recorder_open(
    alloc: Global,
    handle: &mut CamXptRecorder,
    round: &CamxptSpan,
    window: u64,
    room: u32,
) -> i32
    ensures { IsRecorderOpening room (recorder_opening_fault round.now window room) handle.old.body.kept handle.new.body.kept result }
{
    if let Some(port) = handle.take(alloc) {
        handle.put(port);
        return E_OPEN;
    }
    if let Err(code) = check_opening(*round, window, room) {
        return code;
    }
    let Ok(port) = RecorderPort::new(alloc, span_of(*round), window, room) else {
        return E_MEMORY;
    };
    let Ok(made) = Box::new(alloc, port) else {
        return E_MEMORY;
    };
    handle.put(made);
    OK
}

// Why no recorder is opened.
#[tactic(auto, unfolding(crate::specs::RecorderCalls::recorder_opening_fault))]
fn check_opening(round: CamxptSpan, window: u64, room: u32) -> Result<(), i32>
    ensures { MatchResult result (λ _. recorder_opening_fault round window room ≡ None) (λ code. recorder_opening_fault round window room ≡ Some code) }
{
    if window == 0 || room == 0 || room > MAX_ROOM {
        return Err(E_LIMIT);
    }
    if round.unit > SECONDS {
        return Err(E_UNIT);
    }
    Ok(())
}

/// Closes the handle and frees all memory of its recorder. A closed handle stays closed.
#[unsafe(no_mangle)]
pub extern "C" fn camxpt_raw_recorder_close(alloc: Global, handle: &mut CamXptRecorder) -> i32
    ensures closed { handle.new.body.kept ≡ None }
    ensures code { MatchOption handle.old.body.kept (result ≡ E_CLOSED) (λ _. result ≡ OK) }
{
    match handle.take(alloc) {
        Some(_) => OK,
        None => E_CLOSED,
    }
}

/// Adds a device: its name, and how many requests it serves at once, or 0 if that isn't known. It has the next number, from 0 on.
#[unsafe(no_mangle)]
pub extern "C" fn camxpt_raw_recorder_add_device(
    alloc: Global,
    handle: &mut CamXptRecorder,
    name: &[u8],
    depth: u32,
) -> i32
    ensures { IsRecorderCall (λ k. IsAdded (nat_lt k.recorded.devices MAX_DEVICES) (one_device_more k) k) handle.old.body.kept handle.new.body.kept result }
{
    let Some(mut port) = handle.take(alloc) else {
        return E_CLOSED;
    };
    let code = port.add_device(name, if depth == 0 { None } else { Some(depth) });
    handle.put(port);
    code
}

/// Adds a driver by its name. It has the next number, from 0 on.
#[unsafe(no_mangle)]
pub extern "C" fn camxpt_raw_recorder_add_driver(
    alloc: Global,
    handle: &mut CamXptRecorder,
    name: &[u8],
) -> i32
    ensures { IsRecorderCall (λ k. IsAdded (nat_lt k.recorded.drivers MAX_DRIVERS) (one_driver_more k) k) handle.old.body.kept handle.new.body.kept result }
{
    let Some(mut port) = handle.take(alloc) else {
        return E_CLOSED;
    };
    let code = port.add_driver(name);
    handle.put(port);
    code
}

/// Notes that a request arrives at the device and from the driver of these numbers.
#[unsafe(no_mangle)]
pub extern "C" fn camxpt_raw_note_arrival(
    alloc: Global,
    handle: &mut CamXptRecorder,
    id: u64,
    device: u32,
    driver: u8,
    priority: u32,
    ns: u64,
) -> i32
    ensures { IsRecorderCall (λ k. IsNoted (recorder_fault id device driver priority ns k.recorded) (arrival_noted id device driver priority ns k.recorded) k) handle.old.body.kept handle.new.body.kept result }
{
    let Some(mut port) = handle.take(alloc) else {
        return E_CLOSED;
    };
    let code = port.note_arrival(id, device, driver, priority, ns);
    handle.put(port);
    code
}

/// Notes that the open request of an id is started.
#[unsafe(no_mangle)]
pub extern "C" fn camxpt_raw_note_start(
    alloc: Global,
    handle: &mut CamXptRecorder,
    id: u64,
    ns: u64,
) -> i32
    ensures { IsRecorderCall (λ k. IsNoted (start_fault id ns k.recorded.noted) (start_noted id ns k.recorded) k) handle.old.body.kept handle.new.body.kept result }
{
    let Some(mut port) = handle.take(alloc) else {
        return E_CLOSED;
    };
    let code = port.note_start(id, ns);
    handle.put(port);
    code
}

/// Notes that the open request of an id is done.
#[unsafe(no_mangle)]
pub extern "C" fn camxpt_raw_note_done(
    alloc: Global,
    handle: &mut CamXptRecorder,
    id: u64,
    ns: u64,
) -> i32
    ensures { IsRecorderCall (λ k. IsNoted (done_fault id ns k.recorded.noted) (done_noted id ns k.recorded) k) handle.old.body.kept handle.new.body.kept result }
{
    let Some(mut port) = handle.take(alloc) else {
        return E_CLOSED;
    };
    let code = port.note_done(id, ns);
    handle.put(port);
    code
}

/// Withdraws the open request of an id, which wasn't started.
#[unsafe(no_mangle)]
pub extern "C" fn camxpt_raw_note_cancel(alloc: Global, handle: &mut CamXptRecorder, id: u64) -> i32
    ensures { IsRecorderCall (λ k. IsNoted (cancel_fault id k.recorded.noted) (cancel_noted id k.recorded) k) handle.old.body.kept handle.new.body.kept result }
{
    let Some(mut port) = handle.take(alloc) else {
        return E_CLOSED;
    };
    let code = port.cancel(id);
    handle.put(port);
    code
}

/// Whether a window is over or waits to be written: `OK` or `NONE`.
#[unsafe(no_mangle)]
pub extern "C" fn camxpt_raw_recorder_is_due(alloc: Global, handle: &mut CamXptRecorder) -> i32
    ensures { IsRecorderCall IsDueAnswer handle.old.body.kept handle.new.body.kept result }
{
    let Some(port) = handle.take(alloc) else {
        return E_CLOSED;
    };
    let code = if port.is_due() { OK } else { NONE };
    handle.put(port);
    code
}

/// Makes the next window and the bytes of its recording, if it is over or is to end sooner, and says what there is to say of it: `OK`, or
/// `NONE` if there is none. One that was made and not yet written is said again. If no memory is left, nothing is lost, and the call can
/// be made again; at `E_WINDOW` the requests of the window are lost.
#[unsafe(no_mangle)]
pub extern "C" fn camxpt_raw_recorder_make(
    alloc: Global,
    handle: &mut CamXptRecorder,
    ending: u32,
    window: &mut CamxptWindow,
) -> i32
    ensures call { IsRecorderCall (IsMade window.old window.new) handle.old.body.kept handle.new.body.kept result }
    ensures closed { handle.old.body.kept ≡ None → window.new ≡ window.old }
{
    let Some(mut port) = handle.take(alloc) else {
        return E_CLOSED;
    };
    let code = match port.make(alloc, ending_of(ending)) {
        Ok(true) => {
            *window = port.window();
            OK
        }
        Ok(false) => NONE,
        Err(code) => code,
    };
    handle.put(port);
    code
}

// How a window ends, by its number.
fn ending_of(ending: u32) -> Ending
    ensures { result ≡ ending_of ending }
{
    match ending {
        BEFORE => Ending::Before(0),
        LAST_START => Ending::LastStart,
        _ => Ending::Whole,
    }
}

/// Copies the bytes of the window's recording from an offset on, as many as there are and there is room for, and gives how many these are:
/// `OK`, or `NONE` if no window waits to be written.
#[unsafe(no_mangle)]
pub extern "C" fn camxpt_raw_recorder_read(
    alloc: Global,
    handle: &mut CamXptRecorder,
    offset: usize,
    buffer: &mut [u8],
    copied: &mut usize,
) -> i32
    ensures same { handle.new.body.kept ≡ handle.old.body.kept }
    ensures read { MatchOption handle.old.body.kept
        ((result ≡ E_CLOSED) × (buffer.new ≡ buffer.old) × (copied.new ≡ copied.old))
        (λ k. IsRead k.text offset buffer.old copied.old buffer.new copied.new result) }
{
    let Some(port) = handle.take(alloc) else {
        return E_CLOSED;
    };
    let code = port.read(offset, buffer, copied);
    handle.put(port);
    code
}

/// Lets go of the window and of its bytes, which were written.
#[unsafe(no_mangle)]
pub extern "C" fn camxpt_raw_recorder_written(alloc: Global, handle: &mut CamXptRecorder) -> i32
    ensures { IsRecorderCall (λ k m code. (code ≡ OK) × (m ≡ written k)) handle.old.body.kept handle.new.body.kept result }
{
    let Some(mut port) = handle.take(alloc) else {
        return E_CLOSED;
    };
    port.written();
    handle.put(port);
    OK
}
