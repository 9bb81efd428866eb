//! The freezes of a history, each with its rounds and what it cost.

ghost use Rattle.std.specs.Prelude.{◌≡◌, ◌≤◌, ◌++◌, length, count_by, IfOk};
ghost use Rattle.wait_causes.specs.Words.{MAX_STAYS, round, numbers, cause_in, flag_in};
ghost use Rattle.wait_causes.specs.Freezes.{begins, behind, rounds_between, waits_for, stay_cost, cost_in, freeze_from, freezes_at, freezes_by, freezes_found};

use crate::explained_stay::ExplainedStay;
use crate::freeze::{Freeze, cause_of, grouping_of};
use crate::table::stays_of;
use round_net::{FreezeKind, RoundTable, WaitCause};
use std::alloc::{AllocError, Global};

/// The freezes: those by errors, then those by callers, then those of adapters.
pub(crate) fn freezes_of(
    alloc: Global,
    table: &RoundTable,
    stays: &[ExplainedStay],
) -> Result<Vec<Freeze>, AllocError>
    requires few { length stays.now ≤ MAX_STAYS }
    ensures { IfOk result (λ rows. rows.items ≡ freezes_found table.now.config table.now.events stays.now) }
{
    let mut rows = Vec::new(alloc);
    push_freezes(alloc, &mut rows, FreezeKind::Error, table, stays)?;
    push_freezes(alloc, &mut rows, FreezeKind::Caller, table, stays)?;
    push_freezes(alloc, &mut rows, FreezeKind::Adapter, table, stays)?;
    Ok(rows)
}

// Puts the freezes of this kind after the others.
#[tactic(auto, unfolding(crate::specs::Freezes::freezes_by))]
fn push_freezes(
    alloc: Global,
    freezes: &mut Vec<Freeze>,
    kind: FreezeKind,
    table: &RoundTable,
    stays: &[ExplainedStay],
) -> Result<(), AllocError>
    requires few { length stays.now ≤ MAX_STAYS }
    ensures { IfOk result (λ _. freezes.new.items ≡ freezes.old.items ++ freezes_by kind (flag_in kind table.now.config table.now.events) (numbers kind table.now.config) (round table.now.events) (cause_in table.now.config table.now.events) stays.now) }
{
    for number in 0..kind.numbers(table.end().devices().config()) {
        let there = stays_of(alloc, stays, grouping_of(kind), number)?;
        push_number(freezes, kind, table, number, &there)?;
    }
    Ok(())
}

// Puts the freezes of this device or adapter after the others, by the stays there.
#[tactic(auto, unfolding(crate::specs::Freezes::freezes_at))]
fn push_number(
    freezes: &mut Vec<Freeze>,
    kind: FreezeKind,
    table: &RoundTable,
    number: u32,
    there: &[ExplainedStay],
) -> Result<(), AllocError>
    requires few { length there.now ≤ MAX_STAYS }
    ensures { IfOk result (λ _. freezes.new.items ≡ freezes.old.items ++ freezes_at kind number (flag_in kind table.now.config table.now.events number) (round table.now.events) (cause_in table.now.config table.now.events) there.now) }
{
    for round in 1..table.end().devices().round() {
        if begins(kind, table, number, round) {
            freezes.push(freeze_from(kind, table, number, there, round))?;
        }
    }
    Ok(())
}

// Whether a freeze begins in the round: it held at its end, and not at the end of the round before.
fn begins(kind: FreezeKind, table: &RoundTable, number: u32, round: u32) -> bool
    ensures { result ≡ begins (flag_in kind table.now.config table.now.events number) round }
{
    table.is_frozen(kind, number, round)
        && (round <= 1 || !table.is_frozen(kind, number, round - 1))
}

// The freeze that begins in the round.
#[tactic(auto, unfolding(crate::specs::Freezes::freeze_from))]
fn freeze_from(
    kind: FreezeKind,
    table: &RoundTable,
    number: u32,
    there: &[ExplainedStay],
    first: u32,
) -> Freeze
    requires few { length there.now ≤ MAX_STAYS }
    ensures { result ≡ freeze_from kind number (flag_in kind table.now.config table.now.events number) (round table.now.events) (cause_in table.now.config table.now.events) there.now first }
{
    let end = behind(kind, table, number, first);
    Freeze {
        kind,
        number,
        first,
        last: end.saturating_sub(1),
        cost: cost_in(cause_of(kind), first, end, table, there),
    }
}

// The first round from this one on at whose end it didn't hold, or the one that didn't end.
fn behind(kind: FreezeKind, table: &RoundTable, number: u32, first: u32) -> u32
    ensures { result ≡ behind (flag_in kind table.now.config table.now.events number) (round table.now.events) first }
{
    let last = table.end().devices().round();
    for round in first..last {
        if !table.is_frozen(kind, number, round) {
            return round;
        }
    }
    last
}

// What the stays waited for the cause in the rounds from the first to the one before the end, by weight.
#[tactic(auto, unfolding(crate::specs::Freezes::cost_in))]
fn cost_in(
    cause: WaitCause,
    first: u32,
    end: u32,
    table: &RoundTable,
    stays: &[ExplainedStay],
) -> u64
    requires few { length stays.now ≤ MAX_STAYS }
    ensures { result ≡ cost_in (cause_in table.now.config table.now.events) cause (rounds_between first end) stays.now }
{
    let mut cost = 0;
    for stay in stays {
        cost += stay_cost(cause, first, end, table, stay);
    }
    cost
}

// What the stay waited for the cause in these rounds, by weight.
#[tactic(auto, using(crate::proofs::PartLemmas::weight_fits))]
fn stay_cost(
    cause: WaitCause,
    first: u32,
    end: u32,
    table: &RoundTable,
    stay: &ExplainedStay,
) -> u64
    ensures same { result ≡ stay_cost (cause_in table.now.config table.now.events) cause (rounds_between first end) stay.now }
    ensures small { result ≤ 281474976710656 }
{
    u64::from(stay.weight) * u64::from(rounds_for(cause, first, end, table, stay))
}

// In how many of these rounds the stay waited for the cause.
fn rounds_for(
    cause: WaitCause,
    first: u32,
    end: u32,
    table: &RoundTable,
    stay: &ExplainedStay,
) -> u32
    ensures { result ≡ count_by (waits_for (cause_in table.now.config table.now.events) cause stay.now) (rounds_between first end) }
{
    let mut rounds = 0;
    for round in first..end {
        if waits_for(cause, table, stay, round) {
            rounds += 1;
        }
    }
    rounds
}

// Whether the stay waited for the cause in the round.
fn waits_for(cause: WaitCause, table: &RoundTable, stay: &ExplainedStay, round: u32) -> bool
    ensures { result ≡ waits_for (cause_in table.now.config table.now.events) cause stay.now round }
{
    stay.arrival <= round && round < stay.live && cause.is(table.cause(stay.device, round))
}
