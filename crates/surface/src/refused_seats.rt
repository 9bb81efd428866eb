//! Calls of two seats of a shared transport that take memory, and the gathering of both.

use anyhow::{Result, bail};
use cam_types::{Config, ConfigError, Device, Flags};
use std::alloc::Global;
use std::sync::Wait;
use std::sync::ledger::Ledger;
use xpt_lock::{GatherFault, Seat, SeatName, SharedFault, SharedXpt};

// How many CCBs are submitted, and sent.
const CALLS: u32 = 20;

/// One adapter, one device and one lane, of many openings.
pub fn wide_config(alloc: Global) -> Result<Config, ConfigError> {
    let device = Device {
        bus: 0,
        target: 1,
        lun: 0,
        openings: 255,
    };
    Config::new(alloc, &[255], &[device], &[0])
}

/// Two seats, and a list with room for both.
#[derive(Drop)]
pub struct Seats<L: Ledger> {
    driver: Seat<L>,
    lane: Seat<L>,
    list: Vec<Seat<L>>,
}

impl<L: Ledger> Seats<L> {
    /// The seats of a driver and of a lane.
    pub fn taken<T: Wait>(threads: &T, alloc: Global, shared: &SharedXpt<L>) -> Result<Seats<L>> {
        Ok(Seats {
            driver: shared.seat(threads, alloc, SeatName::Driver(0))?,
            lane: shared.seat(threads, alloc, SeatName::Lane(0))?,
            list: Vec::with_capacity(alloc, 2)?,
        })
    }

    /// Submits by one seat, sends by the other and gathers both.
    pub fn call<T: Wait>(
        self,
        rt: &HostRuntime,
        threads: &T,
        alloc: Global,
        shared: SharedXpt<L>,
    ) -> Result<()> {
        let Seats {
            mut driver,
            mut lane,
            mut list,
        } = self;
        call_all(rt, threads, &shared, &mut driver, "submit")?;
        call_all(rt, threads, &shared, &mut lane, "send")?;
        list.push(driver)?;
        list.push(lane)?;
        match shared.gather(alloc, list) {
            Err(GatherFault::OutOfMemory) => println!(rt; "gather: out of memory")?,
            gathered => println!(rt; "{} events", gathered?.events().len())?,
        }
        Ok(())
    }
}

fn call_all<L: Ledger, T: Wait>(
    rt: &HostRuntime,
    threads: &T,
    shared: &SharedXpt<L>,
    seat: &mut Seat<L>,
    name: &str,
) -> Result<()> {
    for _ in 0..CALLS {
        insist(rt, threads, shared, seat, name)?;
    }
    println!(rt; "{name} {CALLS}")?;
    Ok(())
}

// Makes the call, and once more if there was no memory for it: then the seat and the transport have to be as they were.
fn insist<L: Ledger, T: Wait>(
    rt: &HostRuntime,
    threads: &T,
    shared: &SharedXpt<L>,
    seat: &mut Seat<L>,
    name: &str,
) -> Result<()> {
    let receipts = seat.receipts().len();
    let length = shared.look(threads).length;
    match make(threads, shared, seat, name) {
        Err(SharedFault::OutOfMemory) => {
            if seat.receipts().len() != receipts || shared.look(threads).length != length {
                bail!("a refused call changed something");
            }
            println!(rt; "{name}: out of memory")?;
            make(threads, shared, seat, name)?;
        }
        made => made?,
    }
    Ok(())
}

// A submit, or a send of the lane's next command.
fn make<L: Ledger, T: Wait>(
    threads: &T,
    shared: &SharedXpt<L>,
    seat: &mut Seat<L>,
    name: &str,
) -> Result<(), SharedFault> {
    if name == "submit" {
        shared.submit(threads, seat, 0, 0, 1152, 4, Flags::none())?;
    } else {
        shared.send_next(threads, seat, 0)?;
    }
    Ok(())
}
