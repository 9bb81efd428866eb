//! Spare starts by their rounds.

ghost use Rattle.std.specs.Prelude.{◌≡◌, ◌+◌, ◌-◌, ◌*◌, ◌/◌, ◌%◌, ◌<◌, ◌≤◌, ◌^◌, ◌++◌, List, [], ℕ, IfOk, length, slice_index, slice_set, min};
ghost use Rattle.slots.specs.Gaps.{round_at, spaced, spare_within};
ghost use Rattle.slots.specs.Tallies.{Clock, IsRow, IsTally, MOST_SPARE};

use std::alloc::{AllocError, Global};

/// The most spare starts that are counted in a round.
pub const MOST_SPARE: u32 = 65_535;

/// How long a request is served, and where rounds begin and how long they are, in nanoseconds.
#[derive(Clone, Copy)]
pub struct Clock {
    pub service: u64,
    pub begin: u64,
    pub span: u64,
}

/// Spare starts so far, by their rounds.
#[derive(Drop)]
pub struct Tally {
    pub row: Vec<u32>,
    pub total: u128,
}

impl Tally {
    /// None, in rounds up to this one. It fails only if there is no memory.
    pub fn none(alloc: Global, rounds: u32) -> Result<Tally, AllocError>
        ensures size { IfOk result (λ tally. length tally.row.items ≡ rounds + 1) }
        ensures tally { (clock : Clock) → IfOk result (λ tally. IsTally clock [] tally.row.items tally.total) }
    {
        Ok(Tally {
            row: vec![in alloc; 0; rounds as usize + 1]?,
            total: 0,
        })
    }

    /// Adds the spare starts of a span.
    pub fn add_span(&mut self, clock: Clock, from: u64, until: u64)
        requires service { 1 ≤ clock.service }
        requires span { 1 ≤ clock.span }
        requires begin { clock.begin ≤ from }
        requires order { from ≤ until }
        requires round { round_at clock.span clock.begin until < length self.old.row.items }
        requires total { self.old.total + 2 ^ 64 ≤ 2 ^ 128 }
        ensures size { length self.new.row.items ≡ length self.old.row.items }
        ensures total { self.new.total < self.old.total + 2 ^ 64 }
        ensures tally { (times : List ℕ) → IsTally clock times self.old.row.items self.old.total → IsTally clock (times ++ spare_within clock.service from until) self.new.row.items self.new.total }
    {
        let count = (until - from) / clock.service;
        spread(&mut self.row, clock, from, count);
        self.total += count as u128;
    }
}

// Adds to a row that many times from one on, one service time apart.
fn spread(row: &mut [u32], clock: Clock, from: u64, count: u64)
    requires service { 1 ≤ clock.service }
    requires span { 1 ≤ clock.span }
    requires begin { clock.begin ≤ from }
    requires fits { from + count * clock.service < 2 ^ 64 }
    requires round { round_at clock.span clock.begin (from + count * clock.service) < length row.old }
    ensures size { length row.new ≡ length row.old }
    ensures rows { (times : List ℕ) → IsRow clock times row.old → IsRow clock (times ++ spaced clock.service from count) row.new }
{
    let mut first = from;
    let mut left = count;
    while left > 0 {
        let within = within_round(clock, first).min(left);
        let round = 1 + (first - clock.begin) / clock.span;
        add_to_round(row, round as usize, within);
        first += within * clock.service;
        left -= within;
    }
}

// How many times from this one on, one service time apart, are in its round.
fn within_round(clock: Clock, first: u64) -> u64
    requires service { 1 ≤ clock.service }
    requires span { 1 ≤ clock.span }
    requires begin { clock.begin ≤ first }
    ensures some { 1 ≤ result }
    ensures within { (first - clock.begin) % clock.span + (result - 1) * clock.service < clock.span }
{
    let left = clock.span - (first - clock.begin) % clock.span;
    (left - 1) / clock.service + 1
}

// Adds to a round, up to the most that are counted.
fn add_to_round(row: &mut [u32], round: usize, more: u64)
    requires { round < length row.old }
    ensures { row.new ≡ slice_set row.old round (min MOST_SPARE (slice_index row.old round + more)) }
{
    let most = MOST_SPARE as u64;
    row[round] = (row[round] as u64 + more.min(most)).min(most) as u32;
}
