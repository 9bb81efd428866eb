//! The eleven kinds of events, and what each concerns.

use crate::submission::Submission;
use cam_types::{Flags, Outcome};

/// One atomic step of one actor. CCBs, devices, adapters and lanes are numbered from 0 in the order in which they came.
#[derive(Clone, Copy, Debug, PartialEq, Eq)]
pub enum Event {
    /// A driver hands in a CCB. Its number is the count of submissions before it.
    Submit {
        driver: u8,
        device: u32,
        priority: u32,
        retries: u32,
        flags: Flags,
    },
    /// A lane sends the CCB to its device.
    Send {
        lane: u32,
        ccb: u32,
    },
    /// The command that was sent has completed.
    Done {
        ccb: u32,
        outcome: Outcome,
    },
    /// The CCB goes back into its queue, in the next round.
    Requeue {
        ccb: u32,
    },
    /// The CCB has failed and is given back.
    Finish {
        ccb: u32,
    },
    /// A caller freezes the device's queue that many times.
    FreezeDev {
        device: u32,
        count: u32,
    },
    /// A caller takes that many freezes of the device's queue away.
    ReleaseDev {
        device: u32,
        count: u32,
    },
    /// A caller freezes the adapter that many times.
    FreezeSim {
        sim: u32,
        count: u32,
    },
    /// A caller takes one freeze of the adapter away.
    ReleaseSim {
        sim: u32,
    },
    /// From the next round on the device takes that many commands a round.
    Adjust {
        device: u32,
        openings: u32,
    },
    /// The next round opens.
    Tick,
}

impl Event {
    ghost use Rattle.std.specs.Prelude.{◌≡◌};
    ghost use Rattle.event_rules.specs.Event.{is_tick, submission_of, is_send_of, is_done_of, is_send_or_done_of, is_requeue_of, is_finish_of, concerns, ccb_of, outcome_of, is_erring};

    /// What a submit submits.
    pub fn submission(&self) -> Option<Submission>
        ensures { result ≡ submission_of self.now }
    {
        match *self {
            Event::Submit {
                driver,
                device,
                priority,
                retries,
                flags,
            } => Some(Submission {
                driver,
                device,
                priority,
                retries,
                flags,
            }),
            _ => None,
        }
    }

    /// Whether it opens a round.
    pub fn is_tick(&self) -> bool
        ensures { result ≡ is_tick self.now }
    {
        matches!(self, Event::Tick)
    }

    /// Whether it requeues the CCB of this number.
    pub fn is_requeue_of(&self, number: u32) -> bool
        ensures { result ≡ is_requeue_of number self.now }
    {
        matches!(*self, Event::Requeue { ccb } if ccb == number)
    }

    /// Whether it sends the CCB of this number.
    pub fn is_send_of(&self, number: u32) -> bool
        ensures { result ≡ is_send_of number self.now }
    {
        matches!(*self, Event::Send { ccb, .. } if ccb == number)
    }

    /// Whether it completes the CCB of this number.
    pub fn is_done_of(&self, number: u32) -> bool
        ensures { result ≡ is_done_of number self.now }
    {
        matches!(*self, Event::Done { ccb, .. } if ccb == number)
    }

    /// Whether it sends or completes the CCB of this number.
    pub fn is_send_or_done_of(&self, number: u32) -> bool
        ensures { result ≡ is_send_or_done_of number self.now }
    {
        self.is_send_of(number) || self.is_done_of(number)
    }

    /// Whether it finishes the CCB of this number.
    pub fn is_finish_of(&self, number: u32) -> bool
        ensures { result ≡ is_finish_of number self.now }
    {
        matches!(*self, Event::Finish { ccb } if ccb == number)
    }

    /// Whether it sends, completes, requeues or finishes the CCB of this number.
    pub fn concerns(&self, number: u32) -> bool
        ensures { result ≡ concerns number self.now }
    {
        self.is_send_or_done_of(number) || self.is_requeue_of(number) || self.is_finish_of(number)
    }

    /// The CCB that it sends, completes, requeues or finishes.
    pub fn ccb(&self) -> Option<u32>
        ensures { result ≡ ccb_of self.now }
    {
        match *self {
            Event::Send { ccb, .. }
            | Event::Done { ccb, .. }
            | Event::Requeue { ccb }
            | Event::Finish { ccb } => Some(ccb),
            _ => None,
        }
    }

    /// What a completion says.
    pub fn outcome(&self) -> Option<Outcome>
        ensures { result ≡ outcome_of self.now }
    {
        match *self {
            Event::Done { outcome, .. } => Some(outcome),
            _ => None,
        }
    }

    /// Whether it is a completion whose status isn't 01.
    pub fn is_erring(&self) -> bool
        ensures { result ≡ is_erring self.now }
    {
        match *self {
            Event::Done { outcome, .. } => outcome.status & 0x3f != 0x01,
            _ => false,
        }
    }
}
