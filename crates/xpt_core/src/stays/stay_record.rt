//! A stay with its send and the stay that follows it.

use event_rules::Passage;

/// A stay, its send, and the stay that follows it.
#[derive(Clone, Copy, Debug, PartialEq, Eq)]
pub struct StayRecord {
    /// The stay.
    pub stay: Passage,
    /// The round of its send, if it was sent.
    pub sent: Option<u32>,
    /// The round in which its CCB's next stay enters the queue, if there is one.
    pub next_arrival: Option<u32>,
}

impl StayRecord {
    ghost use Rattle.std.specs.Prelude.{◌≡◌, ◌+◌, ◌<◌, ◌^◌};
    ghost use Rattle.xpt_core.specs.StayRecord.{begun, is_queued, followed_in, requeued_in};

    // The record of a stay that begins.
    pub(crate) fn begun(stay: Passage) -> StayRecord
        ensures { result ≡ begun stay }
    {
        StayRecord {
            stay,
            sent: None,
            next_arrival: None,
        }
    }

    // Whether the stay is queued in this round: it has arrived, and is without a send.
    pub(crate) fn is_queued(&self, round: u32) -> bool
        ensures { result ≡ is_queued round self.now }
    {
        self.sent.is_none() && self.stay.arrival <= round
    }

    // Ends the stay by a requeue in this round, at this place of the events, which begins its CCB's next one.
    pub(crate) fn requeue(&mut self, round: u32, place: u32) -> Passage
        requires few { self.old.stay.attempt + 1 < 2 ^ 32 }
        requires rounds { round + 1 < 2 ^ 32 }
        ensures next { result ≡ requeued_in round place self.old.stay }
        ensures here { self.new ≡ followed_in round self.old }
    {
        let arrival = round + 1;
        self.next_arrival = Some(arrival);
        Passage {
            attempt: self.stay.attempt + 1,
            arrival,
            requeued: true,
            place,
            ..self.stay
        }
    }
}
