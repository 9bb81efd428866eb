//! A lane of a run on threads.

ghost use Rattle.std.specs.Prelude.{◌≡◌};

use crate::handed::{Handed, LanePort};
use crate::port::Port;
use crate::workplace::Workplace;
use std::sync::Wait;
use std::sync::ledger::Ledger;
use xpt_lock::{Seat, SharedFault, WaitEvent};
use xpt_state::{Idle, Sent};

/// Sends what the lane's adapter has to send and serves it by the port, until all are to stop.
pub(crate) fn run_lane<L: Ledger, P: Port, H: Handed, R: Wait>(
    rt: &R,
    place: &Workplace<L>,
    lane: u32,
    port: &mut LanePort<P, H>,
    seat: &mut Seat<L>,
) {
    let mut has_served = false;
    for _ in rt.forever() {
        let work = place.shared.epoch(rt, WaitEvent::Work);
        let round = place.shared.epoch(rt, WaitEvent::Round);
        if place.is_stopped() {
            return;
        }
        let idle = match serve_next(rt, place, lane, port, seat) {
            Ok(None) => {
                has_served = true;
                continue;
            }
            Ok(Some(why)) => why,
            Err(fault) => {
                place.stop_by(rt, fault);
                return;
            }
        };
        if has_served {
            has_served = false;
            place.shared.notify(rt, WaitEvent::Rest);
        }
        // Openings come back with the next round.
        if idle == Idle::AdapterBusy {
            place.shared.wait_past(rt, round);
        } else {
            place.shared.wait_past(rt, work);
        }
    }
}

// Sends the lane's next command, serves it with no lock held, and completes it; or says why the lane is idle.
fn serve_next<L: Ledger, P: Port, H: Handed, R: Wait>(
    rt: &R,
    place: &Workplace<L>,
    lane: u32,
    port: &mut LanePort<P, H>,
    seat: &mut Seat<L>,
) -> Result<Option<Idle>, SharedFault> {
    port.make_room()?;
    let (sent, _) = place.shared.send_next(rt, seat, lane)?;
    match sent {
        Sent::Idle(why) => Ok(Some(why)),
        Sent::Command(command) => {
            let outcome = port.serve(&command);
            place.shared.done(rt, seat, command.ccb, outcome)?;
            Ok(None)
        }
    }
}
