//! Wait events: what a worker may sleep for.

ghost use Rattle.std.specs.Prelude.{◌≡◌};
ghost use Rattle.xpt_lock.specs.WaitEvents.{gives_work, is_failure, is_notified_by};

use event_rules::Event;
use sense_class::Class;
use xpt_state::Reply;

/// What a worker may sleep for.
#[derive(Clone, Copy, Debug, PartialEq, Eq)]
pub enum WaitEvent {
    /// Notified by each tick.
    Round,
    /// Notified by each event after which an adapter may have something to send that it hadn't: a submit, a requeue, a
    /// finish, a release of a device or of an adapter, and a tick.
    Work,
    /// Notified by each completion whose class isn't `Complete`.
    Case,
    /// Notified by no event, only by calls of `SharedXpt::notify`.
    Rest,
}

impl WaitEvent {
    // Whether the event notifies it, which was answered by this reply.
    pub(crate) fn is_notified_by(self, event: &Event, reply: &Reply) -> bool
        ensures { result ≡ is_notified_by event.now reply.now self }
    {
        match self {
            WaitEvent::Round => event.is_tick(),
            WaitEvent::Work => gives_work(event),
            WaitEvent::Case => is_failure(reply),
            WaitEvent::Rest => false,
        }
    }
}

// Whether an adapter may have something to send after the event that it hadn't before.
fn gives_work(event: &Event) -> bool
    ensures { result ≡ gives_work event.now }
{
    match *event {
        Event::Submit { .. }
        | Event::Requeue { .. }
        | Event::Finish { .. }
        | Event::ReleaseDev { .. }
        | Event::ReleaseSim { .. }
        | Event::Tick => true,
        Event::Send { .. }
        | Event::Done { .. }
        | Event::FreezeDev { .. }
        | Event::FreezeSim { .. }
        | Event::Adjust { .. } => false,
    }
}

// Whether it is the reply to a completion whose class isn't `Complete`.
fn is_failure(reply: &Reply) -> bool
    ensures { result ≡ is_failure reply.now }
{
    match reply {
        Reply::Done(done) => !matches!(done.class, Class::Complete),
        _ => false,
    }
}
