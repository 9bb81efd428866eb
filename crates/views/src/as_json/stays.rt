//! The stays of an explanation, each with its waits.

use crate::as_json::causes::{key_of, put_cause};
use crate::as_json::members::{
    Value, begin_list, put_member, put_members, put_object, unless_short,
};
use crate::compared::Compared;
use serde::Serializer;
use std::alloc::Global;
use wait_causes::{ExplainedStay, FirstWaits, Wait, WaitCause};

/// Writes all stays of an input as a member of the object that is open, in creation order, each with at most so many of its waits.
pub(crate) fn put_stays<S: Serializer>(
    out: &mut S,
    alloc: Global,
    input: Compared<'_>,
    most: usize,
) -> Result<(), S::Error> {
    let stays = input.explanation.stays();
    begin_list(out, "list", stays.len())?;
    for (place, stay) in stays.iter().enumerate() {
        let waits = input.explanation.first_waits(alloc, place, most);
        let waits = unless_short(out, waits)?;
        put_stay(out, input, stay, &waits)?;
    }
    out.end_seq()
}

// Writes a stay, where the schedules send it, and why it waited.
fn put_stay<S: Serializer>(
    out: &mut S,
    input: Compared<'_>,
    stay: &ExplainedStay,
    waits: &FirstWaits,
) -> Result<(), S::Error> {
    out.begin_map(None)?;
    put_schedules(out, stay)?;
    put_waits(out, &waits.listed)?;
    if waits.more > 0 {
        put_more(out, input, stay, waits)?;
    }
    out.end_map()
}

// Writes what a stay is of, and where the schedules send it.
fn put_schedules<S: Serializer>(out: &mut S, stay: &ExplainedStay) -> Result<(), S::Error> {
    put_members(
        out,
        &[
            ("ccb", stay.ccb),
            ("try", stay.attempt),
            ("driver", u32::from(stay.driver)),
            ("device", stay.device),
            ("priority", stay.priority),
            ("weight", u32::from(stay.weight)),
            ("arrival", stay.arrival),
            ("live", stay.live),
        ],
    )?;
    if let Some(pace) = stay.pace {
        put_member(out, "pace", &pace)?;
    }
    put_member(out, "best", &stay.best)
}

// Writes the waits under their causes' keys.
fn put_waits<S: Serializer>(out: &mut S, waits: &[Wait]) -> Result<(), S::Error> {
    begin_list(out, "waits", waits.len())?;
    for wait in waits {
        let members = [
            ("cause", Value::Text(key_of(wait.cause))),
            ("first", Value::Number(u64::from(wait.first))),
            ("last", Value::Number(u64::from(wait.last))),
        ];
        put_object(out, &members)?;
    }
    out.end_seq()
}

// Writes what a stay waited after the waits that are listed: how many waits these are, their rounds, and what they cost.
fn put_more<S: Serializer>(
    out: &mut S,
    input: Compared<'_>,
    stay: &ExplainedStay,
    waits: &FirstWaits,
) -> Result<(), S::Error> {
    let rounds = stay.live.saturating_sub(waits.next);
    out.key("more")?;
    out.begin_map(None)?;
    put_members(
        out,
        &[
            ("waits", waits.more),
            ("first", u64::from(waits.next)),
            ("last", u64::from(stay.live.saturating_sub(1))),
            ("cost", cost_of(stay, rounds)),
        ],
    )?;
    put_causes_after(out, input, stay, &waits.listed)?;
    out.end_map()
}

// Writes what the rounds of a stay cost that aren't in these waits, by cause.
fn put_causes_after<S: Serializer>(
    out: &mut S,
    input: Compared<'_>,
    stay: &ExplainedStay,
    waits: &[Wait],
) -> Result<(), S::Error> {
    out.key("causes")?;
    out.begin_map(None)?;
    for cause in &input.explanation.kind().causes() {
        let cost = cost_of(stay, rounds_after(stay, waits, *cause));
        put_cause(out, input.net.config(), *cause, cost)?;
    }
    out.end_map()
}

// What that many rounds of a stay's waiting cost.
fn cost_of(stay: &ExplainedStay, rounds: u32) -> u64 {
    u64::from(stay.weight).saturating_mul(u64::from(rounds))
}

// How many rounds a stay waited for a cause that aren't in these waits.
fn rounds_after(stay: &ExplainedStay, waits: &[Wait], cause: WaitCause) -> u32 {
    let mut rounds = stay.rounds.for_cause(cause);
    for wait in waits {
        if wait.cause == cause {
            let length = wait.last.saturating_sub(wait.first).saturating_add(1);
            rounds = rounds.saturating_sub(length);
        }
    }
    rounds
}
