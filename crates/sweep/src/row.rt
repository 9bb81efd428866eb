//! What the runs of a setting come to, all seeds together.

ghost use Rattle.std.specs.Prelude.{◌≡◌, ◌<◌, ◌≤◌, ◌^◌, ◌-◌, length, map, count_by, IfOk};
ghost use Rattle.sweep.specs.Rows.{IsRowOf, IsSpread, measured, is_left};

use crate::runner::Tally;
use crate::spread::spread_of;
use std::alloc::{AllocError, Global};

/// Three of some numbers, in rising order.
#[derive(Clone, Copy)]
pub struct Spread {
    /// The least.
    pub least: u64,
    /// The least that half of them don't pass.
    pub median: u64,
    /// The greatest.
    pub greatest: u64,
}

/// What the waiting of the runs of a setting cost, and how long it was.
#[derive(Clone, Copy)]
pub struct Figures {
    /// The weighted rounds that all stays of a run waited.
    pub live: Spread,
    /// Those of a best schedule of the run.
    pub best: Spread,
    /// Those that could have been avoided in the run.
    pub excess: Spread,
    /// The rounds that 99 in a hundred stays of the run didn't pass.
    pub p99: Spread,
}

/// What the runs of a setting come to.
#[derive(Clone, Copy)]
pub enum Row {
    /// All drained.
    Drained(Figures),
    /// Some didn't.
    Undrained {
        /// How many.
        runs: u32,
        /// How many commands a run left.
        left: Spread,
    },
}

// What is taken of a run.
#[derive(Clone, Copy)]
enum Measure {
    Live,
    Best,
    Excess,
    Waited,
    Left,
}

/// The row of these runs of a setting.
pub(crate) fn row_of(alloc: Global, tallies: &[Tally]) -> Result<Row, AllocError>
    requires some { 0 < length tallies.now }
    requires few { length tallies.now < 2 ^ 32 }
    ensures { IfOk result (IsRowOf tallies.now) }
{
    let runs = tallies.iter().filter(|tally| is_left(tally)).count() as u32;
    if runs > 0 {
        return Ok(Row::Undrained {
            runs,
            left: measured_spread(alloc, tallies, Measure::Left)?,
        });
    }
    Ok(Row::Drained(Figures {
        live: measured_spread(alloc, tallies, Measure::Live)?,
        best: measured_spread(alloc, tallies, Measure::Best)?,
        excess: measured_spread(alloc, tallies, Measure::Excess)?,
        p99: measured_spread(alloc, tallies, Measure::Waited)?,
    }))
}

fn is_left(tally: &Tally) -> bool
    ensures { result ≡ is_left tally.now }
{
    matches!(tally, Tally::Left(_))
}

// The spread of a measure of these runs.
fn measured_spread(alloc: Global, tallies: &[Tally], of: Measure) -> Result<Spread, AllocError>
    requires { 0 < length tallies.now }
    ensures { IfOk result (IsSpread (map (measured of) tallies.now)) }
{
    Ok(spread_of(measures(alloc, tallies, of)?))
}

// The measure of each run.
fn measures(alloc: Global, tallies: &[Tally], of: Measure) -> Result<Vec<u64>, AllocError>
    ensures { IfOk result (λ numbers. numbers.items ≡ map (measured of) tallies.now) }
{
    tallies
        .iter()
        .map(|tally| measured(of, tally))
        .collect(alloc)
}

// A run that didn't drain has no cost, and one that did left nothing.
fn measured(of: Measure, tally: &Tally) -> u64
    ensures { result ≡ measured of tally.now }
{
    match (of, tally) {
        (Measure::Live, Tally::Drained(numbers)) => numbers.live,
        (Measure::Best, Tally::Drained(numbers)) => numbers.best,
        (Measure::Excess, Tally::Drained(numbers)) => numbers.live.saturating_sub(numbers.best),
        (Measure::Waited, Tally::Drained(numbers)) => u64::from(numbers.p99),
        (Measure::Left, Tally::Left(left)) => u64::from(*left),
        _ => 0,
    }
}
