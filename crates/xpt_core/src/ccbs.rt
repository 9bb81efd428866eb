//! What is known of a transport's CCBs: a row for each that is alive, and the cases that wait for a decision.

ghost use Rattle.std.specs.Prelude.{◌≡◌, ◌<◌, [], IfOk, vec_len, vec_capacity};
ghost use Rattle.event_rules.specs.Legal.{IsWithinHistory, max_alive};
ghost use Rattle.xpt_core.specs.Cases.{decided};
ghost use Rattle.xpt_core.specs.Rows.{updated, CanUpdate};

pub use laws::{
    asked_decisions_are_taken, decisions_end_cases, failures_are_classed, first_case_failed_first,
    first_case_recovers,
};

mod cases;
pub mod ccb;
mod laws;
mod parts;
mod questions;
mod rows;

use crate::ccbs::cases::update;
use crate::ccbs::rows::Rows;
use event_rules::{Event, Rules};
use std::alloc::{AllocError, Global};

/// The CCBs of a transport, each named by its number: the count of the submissions before it. Nothing grows after `open`.
#[derive(Drop)]
pub(crate) struct Ccbs {
    pub(crate) rows: Rows,
    /// The CCBs that wait for a decision, in the order of completion.
    pub(crate) cases: Vec<u32>,
}

impl Ccbs {
    /// No CCB, with memory for all that the rules let happen.
    pub(crate) fn open(alloc: Global, rules: Rules) -> Result<Ccbs, AllocError>
        ensures range { IfOk result (λ _. IsWithinHistory rules) }
        ensures rows { IfOk result (λ b. b.rows ≡ record { rows = []; slots = max_alive rules; room = rules.stays }) }
        ensures cases { IfOk result (λ b. b.cases.items ≡ []) }
        ensures room { IfOk result (λ b. rules.stays < vec_capacity b.cases) }
    {
        let stays = rules.stays();
        Ok(Ccbs {
            rows: Rows::open(alloc, rules.max_alive(), stays)?,
            cases: Vec::with_capacity(alloc, stays as usize + 1)?,
        })
    }

    /// Updates rows and cases by one event more. It takes no memory.
    pub(crate) fn update(&mut self, event: &Event)
        requires rows { CanUpdate event.now self.old.rows }
        requires room { vec_len self.old.cases < vec_capacity self.old.cases }
        ensures rows { self.new.rows ≡ record self.old.rows { rows = updated event.now self.old.rows.rows } }
        ensures cases { self.new.cases.items ≡ decided event.now self.old.cases.items }
        ensures capacity { vec_capacity self.new.cases ≡ vec_capacity self.old.cases }
    {
        self.rows.update(event);
        update(&mut self.cases, event);
    }
}
