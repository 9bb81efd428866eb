//! A transport's stays: where each was sent, and which is a CCB's latest.

ghost use Rattle.std.specs.Prelude.{◌≡◌, [], ◌∷◌, ◌++◌, IsTrue, IfOk};
ghost use Rattle.event_rules.specs.Legal.{is_legal_event};

mod questions;
pub mod stay_record;
mod update;

use crate::queues::Queues;
use crate::stays::stay_record::StayRecord;
use crate::stays::update::update;
use event_rules::{Event, Rules};
use std::alloc::{AllocError, Global};

/// The stays of a transport: each with its send, and the latest of each CCB. Nothing grows after `open`.
#[derive(Drop)]
pub(crate) struct Stays {
    pub(crate) records: Vec<StayRecord>,
    /// The place of each CCB's latest stay among the records.
    pub(crate) latest: Vec<u32>,
}

impl Stays {
    ghost use Rattle.std.specs.Prelude.{vec_capacity};
    ghost use Rattle.xpt_core.specs.PartsSound.{IsStays};

    /// No stay, with memory for all that the rules let begin.
    pub(crate) fn open(alloc: Global, rules: Rules) -> Result<Stays, AllocError>
        ensures records { IfOk result (λ s. s.records.items ≡ []) }
        ensures latest { IfOk result (λ s. s.latest.items ≡ []) }
        ensures records_room { IfOk result (λ s. vec_capacity s.records ≡ rules.stays) }
        ensures latest_room { IfOk result (λ s. vec_capacity s.latest ≡ rules.stays) }
    {
        let stays = rules.stays() as usize;
        Ok(Stays {
            records: Vec::with_capacity(alloc, stays)?,
            latest: Vec::with_capacity(alloc, stays)?,
        })
    }

    /// Updates the stays by a legal event more after those of the queues. It takes no memory.
    pub(crate) fn update(&mut self, queues: &Queues, event: &Event)
        requires kept { IsStays queues.now self.old }
        requires legal { IsTrue (is_legal_event queues.now.rules queues.now.config (queues.now.events, event.now)) }
        ensures { IsStays (record queues.now { events = queues.now.events ++ event.now ∷ [] }) self.new }
    {
        update(&mut self.records, &mut self.latest, queues, event);
    }
}
