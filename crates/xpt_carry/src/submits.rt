//! The submits of what is left of CCBs.

ghost use Rattle.std.specs.Prelude.{◌≡◌, ◌++◌, filter_map, All, IsTrue, OnOk};
ghost use Rattle.event_rules.specs.declared.passage.Passage.{Passage};
ghost use Rattle.xpt_core.specs.Ccbs.{is_alive};
ghost use Rattle.xpt_carry.specs.Carry.{submit_of};
ghost use Rattle.xpt_carry.specs.Submits.{submit_by};

use crate::events::add;
use event_rules::{Event, Passage};
use std::alloc::AllocError;
use xpt_core::{Ccb, State};

/// Adds a submit for each of the stays, whose CCBs are alive.
pub(crate) fn add_submits(
    events: &mut Vec<Event>,
    state: &State,
    stays: &[Passage],
) -> Result<(), AllocError>
    requires { All (λ (p : Passage). IsTrue (is_alive state.now.events p.ccb)) stays.now }
    ensures { OnOk result (events.new.items ≡ events.old.items ++ filter_map (submit_of state.now.events) stays.now) }
{
    for stay in stays {
        add(events, submit_of(state, stay))?;
    }
    Ok(())
}

// The submit of what is left of the stay's CCB.
fn submit_of(state: &State, stay: &Passage) -> Option<Event>
    requires { IsTrue (is_alive state.now.events stay.now.ccb) }
    ensures { result ≡ submit_of state.now.events stay.now }
{
    match state.ccb(stay.ccb) {
        Some(row) => Some(submit_by(row)),
        None => None,
    }
}

// The submit of what is left of the CCB.
fn submit_by(row: &Ccb) -> Event
    ensures { result ≡ submit_by row.now }
{
    Event::Submit {
        driver: row.submission.driver,
        device: row.submission.device,
        priority: row.submission.priority,
        retries: row.submission.retries.saturating_sub(row.counted),
        flags: row.submission.flags,
    }
}
