//! The doors to a transport's state: by its calls, by events, and as a history.

use crate::calls::answer::Answer;
use crate::calls::call::{Call, Layer};
use crate::calls::layers::Layers;
use crate::calls::maker::make;
use crate::calls::opening::Opening;
use crate::fault::Fault;
use event_rules::{Event, Refusal, Rules};
use std::alloc::{AllocError, Global};
use std::io;
use xpt_state::Xpt;

/// A transport by its calls, one that takes the same events as events, and a history of them over the layers.
#[derive(Drop)]
pub struct Doors {
    xpt: Xpt,
    taker: Xpt,
    layers: Layers,
}

impl Doors {
    /// All without events.
    pub fn open(alloc: Global, opening: &Opening) -> Result<Doors, Fault> {
        let xpt = opening.open(alloc)?;
        let taker = opening.open(alloc)?;
        let layers = Layers::open(alloc, &opening.config(alloc)?)?;
        Ok(Doors { xpt, taker, layers })
    }

    /// Makes the call, and answers what came of it and whether the other doors give the same.
    pub fn make(&mut self, call: Call) -> (Answer, bool) {
        let before = self.xpt.events().len();
        let answer = make(&mut self.xpt, call);
        let agree = match &call {
            Call::Event(event) => self.agrees(before, event, &answer),
            _ => self.follows(before, &answer),
        };
        (answer, agree)
    }

    // Whether all give what the call gave by which the event comes about.
    fn agrees(&mut self, before: usize, event: &Event, answer: &Answer) -> bool {
        match answer {
            Answer::Refused(why) => self.is_refused(event, *why),
            Answer::Idle(_) => self.is_out_of_turn(event),
            _ => self.follows(before, answer),
        }
    }

    // Whether all refuse the event, and for the same cause. A history has limits of its own.
    fn is_refused(&mut self, event: &Event, why: Refusal) -> bool {
        self.taker.refusal(event) == Some(why)
            && self.taker.take(*event) == Err(why)
            && (is_limit(why) || self.layers.push(event) == Err(why))
    }

    // Whether all refuse to send the CCB of the event.
    fn is_out_of_turn(&mut self, event: &Event) -> bool {
        let why = self.taker.refusal(event);
        why.is_some() && self.taker.take(*event).err() == why && self.layers.push(event).is_err()
    }

    // Whether all take the events from this place on, and the last one comes to what the call gave.
    fn follows(&mut self, from: usize, answer: &Answer) -> bool {
        let mut agree = true;
        let mut last = None;
        for event in self.xpt.events().iter().skip(from) {
            agree = agree && self.taker.refusal(event).is_none();
            last = self.taker.take(*event).ok();
            agree = agree && self.layers.push(event).is_ok();
        }
        match answer {
            Answer::Done(reply) => agree && last == Some(*reply),
            _ => agree && last.is_none(),
        }
    }

    /// Prints what there is to see of a layer.
    pub fn tell(&self, rt: &HostRuntime, layer: Layer) -> io::Result<()> {
        self.layers.tell(rt, layer)
    }

    /// Whether the transport gives back what it was opened with, and all have the same events.
    pub fn end(self, alloc: Global, opening: &Opening) -> Result<bool, AllocError> {
        let Doors { xpt, taker, layers } = self;
        let is_kept = xpt.rules() == Rules::of(opening.limits())
            && xpt.config().devices() == opening.devices();
        let history = xpt.into_history(alloc)?;
        let events = history.events();
        Ok(is_kept && events == layers.events() && events == taker.events())
    }
}

// Whether a transport refuses for its own limits, where a history goes on.
fn is_limit(why: Refusal) -> bool {
    matches!(
        why,
        Refusal::HistoryFull(_) | Refusal::CcbFull | Refusal::StaysFull | Refusal::RoundsFull
    )
}
