//! Four threads with a seat each.

ghost use Rattle.std.specs.Prelude.{◌≡◌, ◌<◌, [], IfOk};

use crate::lock::call::make_all;
use crate::lock::fault::Fault;
use crate::lock::load::{DEVICES, THREADS};
use cam_types::{Config, Device, Limits};
use std::alloc::{AllocError, Global};
use std::marker::Brand;
use std::sync::ledger::{Blank, Ledger};
use std::sync::{Barrier, Wait};
use std::thread::{Threads, join};
use std::time::{Clock, Duration, Instant};
use xpt_lock::{Seat, SeatName, SharedXpt};
use xpt_state::Xpt;

/// How many events the seats made, by the history that is gathered of them, and how long the threads took.
pub fn seated<R: Threads + Wait + Clock + AllocGlobal + Sync>(
    rt: &R,
) -> Result<(usize, Duration), Fault> {
    timed::<Brand, R>(rt, Blank::new(65))
}

fn timed<L: Ledger + Send + Sync, R: Threads + Wait + Clock + AllocGlobal + Sync>(
    rt: &R,
    blank: Blank,
) -> Result<(usize, Duration), Fault>
    requires name { blank.name ≡ L.name }
    requires parts { (blank.parts ≡ L.parts) × (blank.parts ≡ 65) }
{
    let shared: SharedXpt<L> = SharedXpt::new(transport(rt.alloc())?, blank);
    let (seats, taken) = timed_seats(rt, &shared)?;
    let history = shared.gather(rt.alloc(), seats)?;
    Ok((history.events().len(), taken))
}

// The seats that made the events, and how long the threads took.
fn timed_seats<L: Ledger + Send + Sync, R: Threads + Wait + Clock + AllocGlobal + Sync>(
    rt: &R,
    shared: &SharedXpt<L>,
) -> Result<(Vec<Seat<L>>, Duration), Fault> {
    let front = two_seats(rt, shared, 0)?;
    let back = two_seats(rt, shared, 2)?;
    let start = Instant::now(rt)?;
    let ((one, two), (three, four)) = all_made(rt, shared, front, back);
    let taken = start.elapsed(rt)?;
    let seats = vec![in rt.alloc(); one, two, three, four].map_err(AllocError::from)?;
    Ok((seats, taken))
}

// The seats of this driver and the next.
fn two_seats<L: Ledger, R: Wait + AllocGlobal>(
    rt: &R,
    shared: &SharedXpt<L>,
    driver: u8,
) -> Result<(Seat<L>, Seat<L>), Fault>
    requires { driver < 4 }
{
    let one = shared.seat(rt, rt.alloc(), SeatName::Driver(driver))?;
    let other = shared.seat(rt, rt.alloc(), SeatName::Driver(driver + 1))?;
    Ok((one, other))
}

// Makes the events of four threads, which begin together.
fn all_made<L: Ledger + Send + Sync, R: Threads + Wait + Sync>(
    rt: &R,
    shared: &SharedXpt<L>,
    front: (Seat<L>, Seat<L>),
    back: (Seat<L>, Seat<L>),
) -> ((Seat<L>, Seat<L>), (Seat<L>, Seat<L>)) {
    let barrier = Barrier::new(4);
    let begin = &barrier;
    join(
        rt,
        move || two_made(rt, shared, begin, front, 0),
        move || two_made(rt, shared, begin, back, 2),
    )
}

// Makes the events of this thread and the next at once.
fn two_made<L: Ledger + Send + Sync, R: Threads + Wait + Sync>(
    rt: &R,
    shared: &SharedXpt<L>,
    begin: &Barrier,
    seats: (Seat<L>, Seat<L>),
    thread: u32,
) -> (Seat<L>, Seat<L>)
    requires { thread < 4 }
{
    let (one, other) = seats;
    join(
        rt,
        move || make_all(rt, shared, begin, one, thread),
        move || make_all(rt, shared, begin, other, thread + 1),
    )
}

/// A transport of an adapter for each thread, with a thread's devices on each.
pub fn transport(alloc: Global) -> Result<Xpt, Fault>
    ensures { IfOk result (λ x. x.events ≡ []) }
{
    let sims = vec![in alloc; 255; THREADS as usize]?;
    let lanes: Vec<u32> = (0..THREADS).collect(alloc)?;
    let devices: Vec<Device> = (0..DEVICES * THREADS).map(device).collect(alloc)?;
    let config = Config::new(alloc, &sims, &devices, &lanes)?;
    Ok(Xpt::open(alloc, config, Limits::most())?)
}

fn device(number: u32) -> Device {
    Device {
        bus: (number / DEVICES % THREADS) as u8,
        target: (number % 0x1_0000) as u16,
        lun: 0,
        openings: 255,
    }
}
