//! How often each wait event was notified.

ghost use Rattle.std.specs.Prelude.{◌≡◌};
ghost use Rattle.xpt_lock.specs.WaitEvents.{is_notified_by, is_wait_event};
ghost use Rattle.xpt_lock.specs.Notifications.{no_notifications, notifications_of, notified_by, counted};

use crate::epoch::Epoch;
use crate::wait_event::WaitEvent;
use event_rules::Event;
use xpt_state::Reply;

// How often each wait event was notified, modulo 2^64.
#[derive(Clone, Copy)]
pub(crate) struct Notifications {
    pub(crate) round: u64,
    pub(crate) work: u64,
    pub(crate) case: u64,
    pub(crate) rest: u64,
}

impl Notifications {
    // None was notified.
    pub(crate) fn none() -> Notifications
        ensures { result ≡ no_notifications }
    {
        Notifications {
            round: 0,
            work: 0,
            case: 0,
            rest: 0,
        }
    }

    // The epoch of the wait event.
    pub(crate) fn epoch(&self, wait_event: WaitEvent) -> Epoch
        ensures wait_event { result.wait_event ≡ wait_event }
        ensures notifications { result.notifications ≡ notifications_of self.now wait_event }
    {
        let notifications = match wait_event {
            WaitEvent::Round => self.round,
            WaitEvent::Work => self.work,
            WaitEvent::Case => self.case,
            WaitEvent::Rest => self.rest,
        };
        Epoch {
            wait_event,
            notifications,
        }
    }

    // Counts a notification of each wait event that the event notifies.
    pub(crate) fn count(&mut self, event: &Event, reply: &Reply)
        ensures { self.new ≡ notified_by (is_notified_by event.now reply.now) self.old }
    {
        self.round = counted(WaitEvent::Round.is_notified_by(event, reply), self.round);
        self.work = counted(WaitEvent::Work.is_notified_by(event, reply), self.work);
        self.case = counted(WaitEvent::Case.is_notified_by(event, reply), self.case);
    }

    // Counts a notification of the wait event.
    pub(crate) fn notify(&mut self, wait_event: WaitEvent)
        ensures { self.new ≡ notified_by (is_wait_event wait_event) self.old }
    {
        match wait_event {
            WaitEvent::Round => self.round = counted(true, self.round),
            WaitEvent::Work => self.work = counted(true, self.work),
            WaitEvent::Case => self.case = counted(true, self.case),
            WaitEvent::Rest => self.rest = counted(true, self.rest),
        }
    }
}

// The count, and one more if it is notified.
fn counted(is_notified: bool, count: u64) -> u64
    ensures { result ≡ counted is_notified count }
{
    if is_notified {
        count.wrapping_add(1)
    } else {
        count
    }
}
