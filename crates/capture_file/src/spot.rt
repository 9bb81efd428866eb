//! Where attempts that haven't ended are found.

ghost use Rattle.std.specs.Prelude.{◌≡◌, true, false};
ghost use Rattle.capture_file.specs.Spots.{spot_of, waiting, early_at, flying};

use crate::attempt::{Attempt, Place, Sent, State};

/// Those that wait at a place, those in flight there whose arrivals weren't seen, or those of a kind whose arrivals are known.
#[derive(Clone, Copy, PartialEq, Eq, PartialOrd, Ord)]
pub(crate) struct Lane {
    pub place: Place,
    pub in_flight: bool,
    /// The arrivals weren't seen.
    pub early: bool,
    /// 0 unless they are in flight and their arrivals are known.
    pub kind: u8,
}

/// Attempts of a lane that have one size: 0 unless they are in flight and their arrivals are known.
#[derive(Clone, Copy, PartialEq, Eq, PartialOrd, Ord)]
pub(crate) struct Queue {
    pub lane: Lane,
    pub size: u64,
}

impl Queue {
    /// Those that wait at a place.
    pub(crate) fn waiting(place: Place) -> Queue
        ensures { result ≡ waiting place }
    {
        Queue {
            lane: Lane {
                place,
                in_flight: false,
                early: false,
                kind: 0,
            },
            size: 0,
        }
    }

    /// Those in flight there whose arrivals weren't seen.
    pub(crate) fn early(place: Place) -> Queue
        ensures { result ≡ early_at place }
    {
        Queue {
            lane: Lane {
                place,
                in_flight: true,
                early: true,
                kind: 0,
            },
            size: 0,
        }
    }

    /// Those in flight there whose arrivals are known, of that kind and size.
    pub(crate) fn flying(place: Place, sent: Sent) -> Queue
        ensures { result ≡ flying place sent }
    {
        Queue {
            lane: Lane {
                place,
                in_flight: true,
                early: false,
                kind: sent.kind,
            },
            size: u64::from(sent.size),
        }
    }
}

/// Where an attempt is in its queue: by its start, and then by its id.
#[derive(Clone, Copy, PartialEq, Eq, PartialOrd, Ord)]
pub(crate) struct Spot {
    pub queue: Queue,
    /// 0 if it waits.
    pub start: u64,
    pub id: u64,
}

/// Where an attempt is, if it hasn't ended.
pub(crate) fn spot_of(attempt: &Attempt) -> Option<Spot>
    ensures { result ≡ spot_of attempt.now }
{
    let queue = match attempt.state {
        State::Waiting => Queue::waiting(attempt.place),
        State::InFlight { .. } if attempt.arrival.is_none() => Queue::early(attempt.place),
        State::InFlight { .. } => Queue::flying(attempt.place, attempt.sent),
        State::Completed { .. } | State::PutBack { .. } => return None,
    };
    Some(Spot {
        queue,
        start: attempt.state.start(),
        id: attempt.id,
    })
}
