//! One of the workers of a run on threads.

use crate::driver::drive;
use crate::handed::{Handed, LanePort};
use crate::keeper::keep;
use crate::lane::run_lane;
use crate::port::Port;
use crate::progress::Progress;
use crate::recovery::recover;
use crate::workplace::Workplace;
use std::sync::Wait;
use std::sync::ledger::Ledger;
use trace_file::Script;
use xpt_lock::Seat;

/// What a worker does.
#[derive(Drop)]
pub(crate) enum Role<P: Port, H: Handed> {
    /// It does the rows of the driver of this number.
    Driver(u8),
    /// It serves the lane of this number by its port.
    Lane(u32, LanePort<P, H>),
    /// It decides on failed CCBs.
    Recovery,
    /// It opens the rounds.
    Keeper,
}

/// A worker: its seat at the transport, and what it does.
#[derive(Drop)]
pub(crate) struct Worker<L: Ledger, P: Port, H: Handed> {
    pub(crate) seat: Seat<L>,
    pub(crate) role: Role<P, H>,
}

/// Does the worker's part until all are to stop, and gives its seat and its port back.
pub(crate) fn work<L: Ledger, P: Port, H: Handed, W: Progress, R: Wait>(
    rt: &R,
    place: &Workplace<L>,
    script: &Script,
    progress: &W,
    worker: Worker<L, P, H>,
) -> Worker<L, P, H> {
    let Worker { mut seat, mut role } = worker;
    match &mut role {
        Role::Driver(driver) => {
            if let Some(steps) = script.drivers().get(usize::from(*driver)) {
                drive(rt, place, *driver, steps, &mut seat);
            }
        }
        Role::Lane(lane, port) => run_lane(rt, place, *lane, port, &mut seat),
        Role::Recovery => recover(rt, place, &mut seat),
        Role::Keeper => keep(rt, place, progress, &mut seat),
    }
    Worker { seat, role }
}
