//! What was asked for, and in which round.

ghost use Rattle.std.specs.Prelude.{◌≡◌, ◌≤◌, ◌++◌, length, if◌then◌else◌, ◌+◌, option_map, option_to_list, IfOk, OnOk};
ghost use Rattle.cam_types.specs.declared.limits.TheConstants.{MAX_EVENTS};
ghost use Rattle.event_rules.specs.Event.{is_tick, submission_of};
ghost use Rattle.conversions.specs.Arrivals.{arrivals, in_round};

use event_rules::{Event, Submission};
use std::alloc::{AllocError, Global};

/// A submit of a history or a request of a recording.
#[derive(Clone, Copy)]
pub(crate) struct Arrival {
    /// The round in which it came, from 1 on.
    pub(crate) round: u32,
    /// What was asked for.
    pub(crate) submission: Submission,
}

/// The submits of a history, in order, each with its round. It fails only if there is no memory.
pub(crate) fn arrivals_of(alloc: Global, events: &[Event]) -> Result<Vec<Arrival>, AllocError>
    requires { length events.now ≤ MAX_EVENTS }
    ensures { IfOk result (λ found. found.items ≡ arrivals events.now) }
{
    let mut found = Vec::new(alloc);
    let mut round = 1;
    for event in events {
        add(&mut found, arrival_in(round, event))?;
        round = round_after(round, event);
    }
    Ok(found)
}

// Adds the arrival, if there is one.
fn add(found: &mut Vec<Arrival>, arrival: Option<Arrival>) -> Result<(), AllocError>
    ensures { OnOk result (found.new.items ≡ found.old.items ++ option_to_list arrival) }
{
    if let Some(arrival) = arrival {
        found.push(arrival)?;
    }
    Ok(())
}

// What an event of the round asks for, if it is a submit.
fn arrival_in(round: u32, event: &Event) -> Option<Arrival>
    ensures { result ≡ option_map (in_round round) (submission_of event.now) }
{
    match event.submission() {
        Some(submission) => Some(Arrival { round, submission }),
        None => None,
    }
}

// The round after an event of this round.
fn round_after(round: u32, event: &Event) -> u32
    requires { round ≤ MAX_EVENTS }
    ensures { result ≡ round + (if is_tick event.now then 1 else 0) }
{
    if event.is_tick() { round + 1 } else { round }
}
