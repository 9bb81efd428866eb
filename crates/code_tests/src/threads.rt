//! Two threads on one transport.

ghost use Rattle.std.specs.Prelude.{◌≡◌};

use crate::frame::shared;
use cam_types::{Flags, Limits, Outcome};
use std::alloc::Global;
use std::marker::Brand;
use std::process::Abort;
use std::sync::Wait;
use std::sync::atomic::{AtomicBool, AtomicU32, Ordering};
use std::sync::ledger::{Blank, Ledger};
use std::test::Fail;
use std::thread::{Threads, join, yield_now};
use xpt_lock::{Epoch, Seat, SeatName, SharedXpt, WaitEvent};
use xpt_state::Reply;

// Submits 100 CCBs and gives the seat back.
fn submits<L: Ledger, R: Wait>(rt: &R, shared: &SharedXpt<L>, seat: Seat<L>) -> Seat<L> {
    let mut seat = seat;
    for _ in 0..100 {
        let _ = shared.submit(rt, &mut seat, 0, 0, 1152, 4, Flags::default());
    }
    seat
}

// Notes the number of each CCB that the seat's submits were answered.
fn note<L: Ledger>(seat: &Seat<L>, times: &mut [u32; 200]) {
    for receipt in seat.receipts() {
        if let Reply::Ccb(number) = receipt.reply {
            if let Some(count) = times.get_mut(number as usize) {
                *count = count.saturating_add(1);
            }
        }
    }
}

fn two_drivers<L: Ledger + Send + Sync, R: Threads + Wait + Abort + Sync>(
    rt: &R,
    alloc: Global,
    blank: Blank,
) -> Result<usize, Fail>
    requires name { blank.name ≡ L.name }
    requires parts { (blank.parts ≡ L.parts) × (blank.parts ≡ 65) }
{
    let shared: SharedXpt<L> = shared(alloc, Limits::most(), blank)?;
    let one = shared.seat(rt, alloc, SeatName::Driver(0))?;
    let other = shared.seat(rt, alloc, SeatName::Driver(1))?;
    let board = &shared;
    let (one, other) = join(
        rt,
        move || submits(rt, board, one),
        move || submits(rt, board, other),
    );
    is_each_once(rt, &one, &other);
    gathered(alloc, shared, one, other)
}

// How many events the two seats made.
fn gathered<L: Ledger>(
    alloc: Global,
    shared: SharedXpt<L>,
    one: Seat<L>,
    other: Seat<L>,
) -> Result<usize, Fail> {
    let mut seats = Vec::new(alloc);
    let _ = seats.push(one);
    let _ = seats.push(other);
    Ok(shared.gather(alloc, seats)?.events().len())
}

// Each of the numbers 0 to 199 was answered once.
fn is_each_once<L: Ledger, R: Abort>(rt: &R, one: &Seat<L>, other: &Seat<L>) {
    let mut times = [0; 200];
    note(one, &mut times);
    note(other, &mut times);
    for count in times.iter() {
        assert_eq!(rt; *count, 1);
    }
}

fn drivers<R: Threads + Wait + Abort + Sync>(rt: &R, alloc: Global) -> Result<usize, Fail> {
    two_drivers::<Brand, R>(rt, alloc, Blank::new(65))
}

#[test]
fn two_threads_get_each_number_once(rt: HostRuntime) -> Result<(), Fail> {
    assert_eq!(&rt; drivers(&rt, rt.alloc())?, 200);
    Ok(())
}

// What notifies a wait event.
#[derive(Clone, Copy, Debug)]
enum Deed {
    Submit,
    Busy,
    Requeue,
    Finish,
    ReleaseDevice,
    ReleaseAdapter,
    Tick,
    // A call that names the wait event.
    Notify,
}

// What stands before the deed: a device or an adapter that is frozen, or a command that is in flight or failed.
fn prepare<L: Ledger, R: Wait>(rt: &R, shared: &SharedXpt<L>, seat: &mut Seat<L>, deed: Deed) {
    match deed {
        Deed::Busy => sends(rt, shared, seat),
        Deed::Requeue => fails(rt, shared, seat, 0x05),
        Deed::Finish => fails(rt, shared, seat, 0x04),
        Deed::ReleaseDevice => {
            let _ = shared.freeze_dev(rt, seat, 0, 1);
        }
        Deed::ReleaseAdapter => {
            let _ = shared.freeze_sim(rt, seat, 0, 1);
        }
        Deed::Submit | Deed::Tick | Deed::Notify => {}
    }
}

// A command is in flight.
fn sends<L: Ledger, R: Wait>(rt: &R, shared: &SharedXpt<L>, seat: &mut Seat<L>) {
    let _ = shared.submit(rt, seat, 0, 0, 1152, 4, Flags::default());
    let _ = shared.send_next(rt, seat, 0);
}

// A command comes back with this status.
fn fails<L: Ledger, R: Wait>(rt: &R, shared: &SharedXpt<L>, seat: &mut Seat<L>, status: u8) {
    sends(rt, shared, seat);
    let _ = shared.done(rt, seat, 0, Outcome::of_status(status));
}

// Notifies the wait event by the deed.
fn notify_by<L: Ledger, R: Wait>(
    rt: &R,
    shared: &SharedXpt<L>,
    seat: Seat<L>,
    wait_event: WaitEvent,
    deed: Deed,
) {
    let mut seat = seat;
    let is_taken = match deed {
        Deed::Submit => shared
            .submit(rt, &mut seat, 0, 0, 1152, 4, Flags::default())
            .is_ok(),
        Deed::Busy => shared
            .done(rt, &mut seat, 0, Outcome::of_status(0x05))
            .is_ok(),
        Deed::Requeue => shared.requeue(rt, &mut seat, 0).is_ok(),
        Deed::Finish => shared.finish(rt, &mut seat, 0).is_ok(),
        Deed::ReleaseDevice => shared.release_dev(rt, &mut seat, 0, 1).is_ok(),
        Deed::ReleaseAdapter => shared.release_sim(rt, &mut seat, 0).is_ok(),
        Deed::Tick => shared.tick(rt, &mut seat).is_ok(),
        Deed::Notify => false,
    };
    if !is_taken {
        shared.notify(rt, wait_event);
    }
}

// How often a thread looks whether the others are about to sleep, and how often it lets them run then.
const TURNS: u32 = 10_000;

// Waits until the other two threads are likely to sleep, but not for ever.
fn let_sleep(about_to: &AtomicU32) {
    for _ in 0..TURNS {
        if about_to.load(Ordering::SeqCst) == 2 {
            break;
        }
        yield_now();
    }
    for _ in 0..TURNS {
        yield_now();
    }
}

// Sleeps past an epoch. Answers whether there was one notification since then, after the one who notifies had come.
fn is_woken<L: Ledger, R: Wait>(
    rt: &R,
    shared: &SharedXpt<L>,
    seen: Epoch,
    about_to: &AtomicU32,
    comes: &AtomicBool,
) -> bool {
    about_to.fetch_add(1, Ordering::SeqCst);
    let woken = shared.wait_past(rt, seen);
    seen.notifications.checked_add(1) == Some(woken.notifications) && comes.load(Ordering::SeqCst)
}

// Two threads sleep for the wait event until another one notifies it. Answers whether both woke by that.
fn sleepers<L: Ledger + Send + Sync, R: Threads + Wait + Abort + Sync>(
    rt: &R,
    alloc: Global,
    blank: Blank,
    wait_event: WaitEvent,
    deed: Deed,
) -> Result<bool, Fail>
    requires name { blank.name ≡ L.name }
    requires parts { (blank.parts ≡ L.parts) × (blank.parts ≡ 65) }
{
    let shared: SharedXpt<L> = shared(alloc, Limits::most(), blank)?;
    let mut seat = shared.seat(rt, alloc, SeatName::Keeper)?;
    prepare(rt, &shared, &mut seat, deed);
    let seen = shared.epoch(rt, wait_event);
    let (board, about_to, comes) = (&shared, &AtomicU32::new(0), &AtomicBool::new(false));
    let ((one, other), _) = join(
        rt,
        move || {
            join(
                rt,
                move || is_woken(rt, board, seen, about_to, comes),
                move || is_woken(rt, board, seen, about_to, comes),
            )
        },
        move || {
            let_sleep(about_to);
            comes.store(true, Ordering::SeqCst);
            notify_by(rt, board, seat, wait_event, deed);
        },
    );
    Ok(one && other)
}

fn are_woken<R: Threads + Wait + Abort + Sync>(
    rt: &R,
    alloc: Global,
    wait_event: WaitEvent,
    deed: Deed,
) -> Result<bool, Fail> {
    sleepers::<Brand, R>(rt, alloc, Blank::new(65), wait_event, deed)
}

#[test]
fn each_wait_event_wakes_all_who_sleep(rt: HostRuntime) -> Result<(), Fail> {
    for (wait_event, deed) in [
        (WaitEvent::Round, Deed::Tick),
        (WaitEvent::Round, Deed::Notify),
        (WaitEvent::Work, Deed::Submit),
        (WaitEvent::Work, Deed::Requeue),
        (WaitEvent::Work, Deed::Finish),
        (WaitEvent::Work, Deed::ReleaseDevice),
        (WaitEvent::Work, Deed::ReleaseAdapter),
        (WaitEvent::Work, Deed::Tick),
        (WaitEvent::Work, Deed::Notify),
        (WaitEvent::Case, Deed::Busy),
        (WaitEvent::Case, Deed::Notify),
        (WaitEvent::Rest, Deed::Notify),
    ] {
        assert!(rt;
            are_woken(&rt, rt.alloc(), wait_event, deed)?,
            "{wait_event:?} by {deed:?}"
        );
    }
    Ok(())
}

// One thread makes events all the time, and another takes 60 seats. Answers how many it got.
fn takes_seats<L: Ledger + Send + Sync, R: Threads + Wait + Abort + Sync>(
    rt: &R,
    alloc: Global,
    blank: Blank,
) -> Result<usize, Fail>
    requires name { blank.name ≡ L.name }
    requires parts { (blank.parts ≡ L.parts) × (blank.parts ≡ 65) }
{
    let shared: SharedXpt<L> = shared(alloc, Limits::most(), blank)?;
    let seat = shared.seat(rt, alloc, SeatName::Driver(0))?;
    let (board, is_over) = (&shared, &AtomicBool::new(false));
    let (seats, seat) = join(
        rt,
        move || {
            let seats = seats_of(rt, alloc, board);
            is_over.store(true, Ordering::SeqCst);
            seats
        },
        move || adjusts_until(rt, board, seat, is_over),
    );
    let (mut seats, count) = (seats?, seat.receipts().len());
    let taken = seats.len();
    seats.push(seat)?;
    let is_whole = shared.gather(alloc, seats)?.events().len() == count;
    Ok(if is_whole { taken } else { 0 })
}

fn seats_of<L: Ledger, R: Wait>(
    rt: &R,
    alloc: Global,
    shared: &SharedXpt<L>,
) -> Result<Vec<Seat<L>>, Fail> {
    let mut seats = Vec::new(alloc);
    for number in 0u8..60 {
        yield_now();
        seats.push(shared.seat(rt, alloc, SeatName::Driver(number))?)?;
    }
    Ok(seats)
}

// Adjusts the device again and again until the other thread is done, but not for ever.
fn adjusts_until<L: Ledger, R: Wait>(
    rt: &R,
    shared: &SharedXpt<L>,
    seat: Seat<L>,
    is_over: &AtomicBool,
) -> Seat<L> {
    let mut seat = seat;
    for _ in 0..60_000 {
        if is_over.load(Ordering::SeqCst) {
            break;
        }
        let _ = shared.adjust(rt, &mut seat, 0, 1);
    }
    seat
}

fn seats_taken<R: Threads + Wait + Abort + Sync>(rt: &R, alloc: Global) -> Result<usize, Fail> {
    takes_seats::<Brand, R>(rt, alloc, Blank::new(65))
}

#[test]
fn seats_are_taken_and_gathered_while_others_act(rt: HostRuntime) -> Result<(), Fail> {
    assert_eq!(&rt; seats_taken(&rt, rt.alloc())?, 60);
    Ok(())
}
