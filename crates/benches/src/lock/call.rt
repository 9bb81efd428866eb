//! The calls of a seat that make the events.

use crate::lock::load::{EVENTS, event};
use event_rules::Event;
use std::sync::ledger::Ledger;
use std::sync::{Barrier, Wait};
use xpt_lock::{Seat, SharedFault, SharedXpt};

/// Makes the events of a thread by its seat when all threads are there, up to one that fails, and gives the seat back.
pub fn make_all<L: Ledger, R: Wait>(
    rt: &R,
    shared: &SharedXpt<L>,
    begin: &Barrier,
    seat: Seat<L>,
    thread: u32,
) -> Seat<L> {
    let mut seat = seat;
    begin.wait(rt);
    for number in 0..EVENTS {
        if make(rt, shared, &mut seat, event(thread, number)).is_err() {
            break;
        }
    }
    seat
}

/// Makes a submit, a send of the lane's next command, or an event at a device.
pub fn make<L: Ledger, R: Wait>(
    rt: &R,
    shared: &SharedXpt<L>,
    seat: &mut Seat<L>,
    event: Event,
) -> Result<(), SharedFault> {
    match event {
        Event::Submit {
            driver,
            device,
            priority,
            retries,
            flags,
        } => {
            shared.submit(rt, seat, driver, device, priority, retries, flags)?;
            Ok(())
        }
        Event::Send { lane, .. } => {
            shared.send_next(rt, seat, lane)?;
            Ok(())
        }
        Event::FreezeDev { device, count } => {
            shared.freeze_dev(rt, seat, device, count)?;
            Ok(())
        }
        Event::ReleaseDev { device, count } => {
            shared.release_dev(rt, seat, device, count)?;
            Ok(())
        }
        Event::Adjust { device, openings } => {
            shared.adjust(rt, seat, device, openings)?;
            Ok(())
        }
        _ => Ok(()),
    }
}
