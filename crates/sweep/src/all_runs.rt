//! All runs of a sweep, side by side.

ghost use Rattle.std.specs.Prelude.{◌≡◌, ◌*◌, ◌+◌, ◌<◌, ◌≤◌, ℕ, true, length, slice_index_or, map, Option, Some, IfOk, IfSome};
ghost use Rattle.sweep.specs.Runs.{Tally as TheTally};
ghost use Rattle.std.specs.List.{list_all};
ghost use Rattle.sweep.specs.Settings.{changes_of};
ghost use Rattle.sweep.specs.Choices.{are_open};
ghost use Rattle.sweep.specs.Plans.{MAX_RUNS};
ghost use Rattle.sweep.specs.Rows.{AreRowsOf, IsRowOf, IsRunAt, AreRunsOf, part, Row as TheRow};

use crate::plan::SweepPlan;
use crate::row::{Row, row_of};
use crate::runner::{Runner, Tally};
use crate::script::changed_script;
use crate::setting::Setting;
use std::alloc::{AllocError, Global};
use std::thread::{Threads, for_each_mut};
use trace_file::Script;

// How many threads run scripts at most.
const THREADS: usize = 32;

/// Runs the script under each setting by each of the seeds from 1 to this one, on threads side by side, and answers a row for
/// each setting, in order. Where no thread can be started, the runs are made one after another. It fails only if there is no
/// memory.
pub fn run_sweep<W: Runner + Sync, R: Threads + Sync>(
    rt: &R,
    alloc: Global,
    runner: &W,
    script: &Script,
    plan: &SweepPlan,
) -> Result<Vec<Row>, AllocError>
    ensures { IfOk result (λ rows. AreRowsOf (W.comes_to runner.now) script.now plan.now.seeds plan.now.settings rows.items) }
{
    let (settings, seeds) = (plan.settings(), plan.seeds());
    let tallies = tallies(rt, alloc, runner, script, settings, seeds)?;
    rows_of(alloc, &tallies, settings.len(), seeds as usize)
}

// A row for each of that many settings: of the first so many runs, of the next so many, and so on.
fn rows_of(
    alloc: Global,
    tallies: &[Tally],
    settings: usize,
    seeds: usize,
) -> Result<Vec<Row>, AllocError>
    requires seeds { 1 ≤ seeds }
    requires all { length tallies.now ≡ settings * seeds }
    requires few { settings * seeds ≤ MAX_RUNS }
    ensures long { IfOk result (λ rows. length rows.items ≡ settings) }
    ensures rows { IfOk result (λ rows. (k : ℕ) (d : TheRow) → k < settings → IsRowOf (part tallies.now seeds k) (slice_index_or rows.items k d)) }
{
    let mut rows = Vec::with_capacity(alloc, settings)?;
    for at in 0..settings {
        let row = row_at(alloc, tallies, at, seeds)?;
        rows.push(row)?;
    }
    Ok(rows)
}

// The row of the setting of this number.
fn row_at(alloc: Global, tallies: &[Tally], at: usize, seeds: usize) -> Result<Row, AllocError>
    requires seeds { 1 ≤ seeds }
    requires few { length tallies.now ≤ MAX_RUNS }
    requires within { at * seeds + seeds ≤ length tallies.now }
    ensures { IfOk result (IsRowOf (part tallies.now seeds at)) }
{
    let first = at * seeds;
    row_of(alloc, &tallies[first..first + seeds])
}

// What the runs come to: those of the first setting by rising seed, then those of the second, and so on.
fn tallies<W: Runner + Sync, R: Threads + Sync>(
    rt: &R,
    alloc: Global,
    runner: &W,
    script: &Script,
    settings: &[Setting],
    seeds: u32,
) -> Result<Vec<Tally>, AllocError>
    requires open { list_all are_open (changes_of settings.now) ≡ true }
    requires seeds { 1 ≤ seeds }
    requires few { length settings.now * seeds ≤ MAX_RUNS }
    ensures { IfOk result (λ all. AreRunsOf (W.comes_to runner.now) script.now seeds (changes_of settings.now) all.items) }
{
    let mut made = vec![in alloc; None; settings.len() * seeds as usize]?;
    run_all(rt, alloc, runner, script, settings, seeds, &mut made);
    all_made(alloc, &made)
}

// Makes each run, on threads side by side, and puts what it comes to in its place, if there is memory for it.
fn run_all<W: Runner + Sync, R: Threads + Sync>(
    rt: &R,
    alloc: Global,
    runner: &W,
    script: &Script,
    settings: &[Setting],
    seeds: u32,
    made: &mut [Option<Tally>],
)
    requires open { list_all are_open (changes_of settings.now) ≡ true }
    requires seeds { 1 ≤ seeds }
    requires long { length made.old ≡ length settings.now * seeds }
    ensures long { length made.new ≡ length made.old }
    ensures each { (i : ℕ) (d : Option TheTally) → i < length settings.now * seeds → IfSome (slice_index_or made.new i d) (IsRunAt (W.comes_to runner.now) script.now seeds (changes_of settings.now) i) }
{
    for_each_mut(
        rt,
        made,
        THREADS,
        &|at, slot| *slot = run_at(alloc, runner, script, settings, seeds, at),
    );
}

// What a run comes to, if there was memory for it.
fn run_at<W: Runner>(
    alloc: Global,
    runner: &W,
    script: &Script,
    settings: &[Setting],
    seeds: u32,
    at: usize,
) -> Option<Tally>
    requires open { list_all are_open (changes_of settings.now) ≡ true }
    requires seeds { 1 ≤ seeds }
    requires at { at < length settings.now * seeds }
    ensures { IfSome result (IsRunAt (W.comes_to runner.now) script.now seeds (changes_of settings.now) at) }
{
    let (setting, place) = (at / seeds as usize, at % seeds as usize);
    let script = changed_script(alloc, script, &settings[setting].changes).ok()?;
    runner.run(&script, place as u64 + 1).ok()
}

// What all runs come to, unless there was no memory for one.
fn all_made(alloc: Global, made: &[Option<Tally>]) -> Result<Vec<Tally>, AllocError>
    ensures { IfOk result (λ all. map Some all.items ≡ made.now) }
{
    let mut all = Vec::with_capacity(alloc, made.len())?;
    for tally in made {
        match tally {
            Some(tally) => all.push(*tally)?,
            None => return Err(AllocError),
        }
    }
    Ok(all)
}
