//! The round keeper of a run on threads.

use crate::progress::Progress;
use crate::workplace::{FOR_GOOD, Rests, Workplace};
use std::sync::Wait;
use std::sync::ledger::Ledger;
use xpt_lock::{Seat, WaitEvent};
use xpt_state::Look;

/// Opens a round each time nothing is left to do in the last one, until nothing is left at all, a limit is reached, or all
/// are to stop, and tells how far the run is.
///
/// Who rests is read before the transport is looked at, and no one else opens rounds: so who rested in this round still does.
pub(crate) fn keep<L: Ledger, W: Progress, R: Wait>(
    rt: &R,
    place: &Workplace<L>,
    progress: &W,
    seat: &mut Seat<L>,
) {
    for _ in rt.forever() {
        let seen = place.shared.epoch(rt, WaitEvent::Rest);
        if place.is_stopped() {
            return;
        }
        let rests = place.rests();
        let look = place.shared.look(rt);
        progress.show(look);
        if !is_round_over(rests, look) {
            place.shared.wait_past(rt, seen);
            continue;
        }
        if is_drained(rests, look) {
            place.stop(rt);
            return;
        }
        if let Err(fault) = place.shared.tick(rt, seat) {
            place.stop_by(rt, fault);
            return;
        }
    }
}

// Whether the drivers and recovery rest, nothing is in flight and no lane has anything to send.
fn is_round_over(rests: Rests, look: Look) -> bool {
    look.round <= rests.drivers
        && (look.cases == 0 || look.round <= rests.recovery)
        && look.in_flight == 0
        && look.heads == 0
}

// Whether, where the round is over, nothing is left to do in a later one.
fn is_drained(rests: Rests, look: Look) -> bool {
    rests.drivers == FOR_GOOD && look.cases == 0 && look.waiting == 0
}
