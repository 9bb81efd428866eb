//! Recovery in a run on threads.

use crate::workplace::Workplace;
use event_rules::Refusal;
use std::sync::Wait;
use std::sync::ledger::Ledger;
use xpt_lock::{Seat, SharedFault, WaitEvent};
use xpt_state::Case;

/// Makes the decision that each failed CCB asks for, in the order in which they completed, until all are to stop.
pub(crate) fn recover<L: Ledger, R: Wait>(rt: &R, place: &Workplace<L>, seat: &mut Seat<L>) {
    let mut has_decided = false;
    for _ in rt.forever() {
        let seen = place.shared.epoch(rt, WaitEvent::Case);
        if place.is_stopped() {
            return;
        }
        let Some(case) = place.shared.next_case(rt) else {
            if has_decided {
                has_decided = false;
                place.shared.notify(rt, WaitEvent::Rest);
            }
            place.shared.wait_past(rt, seen);
            continue;
        };
        if let Err(fault) = decide(rt, place, case, seat) {
            place.stop_by(rt, fault);
            return;
        }
        has_decided = true;
    }
}

// Makes the decision that the case's class asks for; if it is refused, rests until the next round.
//
// No round opens before that: there is a case, and recovery rests in no round that it hasn't announced.
fn decide<L: Ledger, R: Wait>(
    rt: &R,
    place: &Workplace<L>,
    case: Case,
    seat: &mut Seat<L>,
) -> Result<(), SharedFault> {
    let seen = place.shared.epoch(rt, WaitEvent::Round);
    // Whoever stops all notifies this after the word.
    if place.is_stopped() {
        return Ok(());
    }
    let round = place.shared.look(rt).round;
    let made = if case.class.asks_requeue() {
        place.shared.requeue(rt, seat, case.ccb)
    } else {
        place.shared.finish(rt, seat, case.ccb)
    };
    match made {
        Err(SharedFault::Refused(why)) if !matches!(why, Refusal::HistoryFull(_)) => {
            place.rest_recovery(rt, round);
            place.shared.wait_past(rt, seen);
            Ok(())
        }
        Err(fault) => Err(fault),
        Ok(_) => Ok(()),
    }
}
