//! What the workers of a run share: the transport, and a board that says who rests and whether all are to stop.

use std::alloc::{AllocError, Global};
use std::sync::Wait;
use std::sync::atomic::{AtomicBool, AtomicU32, Ordering};
use std::sync::ledger::Ledger;
use trace_file::{DRIVERS, Script};
use xpt_lock::{SharedFault, SharedXpt, WaitEvent};

/// The round until which a driver rests that has done its rows.
pub(crate) const FOR_GOOD: u32 = u32::MAX;

/// What the workers of a run share.
#[derive(Drop)]
pub(crate) struct Workplace<L: Ledger> {
    /// The transport.
    pub(crate) shared: SharedXpt<L>,
    // For each driver by its number, and then for recovery, the last round in which it rests: 0 for none yet.
    rests: Vec<AtomicU32>,
    stopped: AtomicBool,
    short: AtomicBool,
}

/// The last rounds in which the drivers and recovery rest.
#[derive(Clone, Copy)]
pub(crate) struct Rests {
    /// All drivers rest until this round is over.
    pub(crate) drivers: u32,
    /// Recovery rests until this round is over.
    pub(crate) recovery: u32,
}

impl<L: Ledger> Workplace<L> {
    /// The place before anyone works there. A driver without rows rests for good.
    pub(crate) fn new(
        alloc: Global,
        shared: SharedXpt<L>,
        script: &Script,
    ) -> Result<Workplace<L>, AllocError> {
        let mut rests = Vec::new(alloc);
        for steps in script.drivers() {
            let until = if steps.is_empty() { FOR_GOOD } else { 0 };
            rests.push(AtomicU32::new(until))?;
        }
        rests.push(AtomicU32::new(0))?;
        Ok(Workplace {
            shared,
            rests,
            stopped: AtomicBool::new(false),
            short: AtomicBool::new(false),
        })
    }

    /// Whether all are to stop.
    pub(crate) fn is_stopped(&self) -> bool {
        self.stopped.load(Ordering::SeqCst)
    }

    /// Whether memory was refused to a worker.
    pub(crate) fn is_short(&self) -> bool {
        self.short.load(Ordering::SeqCst)
    }

    /// All are to stop.
    pub(crate) fn stop<R: Wait>(&self, rt: &R) {
        self.stopped.store(true, Ordering::SeqCst);
        for wait_event in [
            WaitEvent::Round,
            WaitEvent::Work,
            WaitEvent::Case,
            WaitEvent::Rest,
        ] {
            self.shared.notify(rt, wait_event);
        }
    }

    /// All are to stop, since a worker's call failed by this.
    pub(crate) fn stop_by<R: Wait>(&self, rt: &R, fault: SharedFault) {
        if fault == SharedFault::OutOfMemory {
            self.short.store(true, Ordering::SeqCst);
        }
        self.stop(rt);
    }

    /// The driver rests until this round is over.
    pub(crate) fn rest_driver<R: Wait>(&self, rt: &R, driver: u8, until: u32) {
        self.rest(rt, usize::from(driver), until);
    }

    /// Recovery rests until this round is over.
    pub(crate) fn rest_recovery<R: Wait>(&self, rt: &R, until: u32) {
        self.rest(rt, DRIVERS, until);
    }

    // The notification comes after the change, and the keeper reads the board after the epoch that it sleeps by: it misses none.
    fn rest<R: Wait>(&self, rt: &R, place: usize, until: u32) {
        if let Some(flag) = self.rests.get(place) {
            flag.store(until, Ordering::SeqCst);
        }
        self.shared.notify(rt, WaitEvent::Rest);
    }

    /// Who rests until when.
    pub(crate) fn rests(&self) -> Rests {
        let mut drivers = FOR_GOOD;
        let mut recovery = 0;
        for (place, flag) in self.rests.iter().enumerate() {
            let until = flag.load(Ordering::SeqCst);
            if place < DRIVERS {
                drivers = drivers.min(until);
            } else {
                recovery = until;
            }
        }
        Rests { drivers, recovery }
    }
}
