//! Where the workers sleep, for one wait event each.

use crate::wait_event::WaitEvent;
use event_rules::Event;
use std::sync::Condvar;
use xpt_state::Reply;

// A condition variable for each wait event.
#[derive(Drop)]
pub(crate) struct Sleepers {
    round: Condvar,
    work: Condvar,
    case: Condvar,
    rest: Condvar,
}

impl Sleepers {
    pub(crate) fn none() -> Sleepers {
        Sleepers {
            round: Condvar::new(),
            work: Condvar::new(),
            case: Condvar::new(),
            rest: Condvar::new(),
        }
    }

    // That of this wait event.
    pub(crate) fn at(&self, wait_event: WaitEvent) -> &Condvar {
        match wait_event {
            WaitEvent::Round => &self.round,
            WaitEvent::Work => &self.work,
            WaitEvent::Case => &self.case,
            WaitEvent::Rest => &self.rest,
        }
    }

    // Wakes all who sleep for a wait event that the event notifies.
    pub(crate) fn wake(&self, event: &Event, reply: &Reply) {
        for wait_event in [WaitEvent::Round, WaitEvent::Work, WaitEvent::Case] {
            if wait_event.is_notified_by(event, reply) {
                self.at(wait_event).notify_all();
            }
        }
    }
}
