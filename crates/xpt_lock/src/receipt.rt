//! What an actor gets for an event of its own.

ghost use Rattle.std.specs.Prelude.{◌≡◌};
ghost use Rattle.xpt_lock.specs.Calls.{sent_receipt};

use event_rules::Event;
use xpt_state::{Reply, Sent};

/// What a call of a seat came to.
#[derive(Clone, Copy, Debug, PartialEq, Eq)]
pub struct Receipt {
    /// The event's place in the history, from 0.
    pub at: u32,
    /// The call's event.
    pub event: Event,
    /// What the call answered.
    pub reply: Reply,
}

impl Receipt {
    // The receipt of a lane's turn at this place, if a command was sent.
    pub(crate) fn of_sent(at: u32, lane: u32, sent: Sent) -> Option<Receipt>
        ensures { result ≡ sent_receipt at lane sent }
    {
        match sent {
            Sent::Command(command) => Some(Receipt {
                at,
                event: Event::Send {
                    lane,
                    ccb: command.ccb,
                },
                reply: Reply::Command(command),
            }),
            Sent::Idle(_) => None,
        }
    }
}
