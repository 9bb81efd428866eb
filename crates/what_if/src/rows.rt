//! A table of what-if rows: a row for each list of changes, made on threads side by side.

ghost use Rattle.std.specs.Prelude.{◌≡◌, ◌<◌, ℕ, All, length, slice_index_or, map, Option, Some, Vec, IfOk, IfSome};
ghost use Rattle.round_net.specs.Rows.{instance_of_rows};
ghost use Rattle.what_if.specs.Costs.{Costs as TheCosts, AreCosts, AreChanges, IsRowAt, AreRowsOf};
ghost use Rattle.what_if.specs.Caps.{changed_net};
ghost use Rattle.what_if.specs.Changes.{IsChangeOf};

use crate::change::Change;
use crate::costs::{Costs, costs_of};
use crate::progress::Progress;
use crate::widen::changed;
use round_net::Net;
use std::alloc::{AllocError, Global};
use std::thread::{Threads, for_each_mut};

// How many threads make rows at most.
const THREADS: usize = 4;

/// What the waiting costs by each order in the net with each of these lists of changes, each of which is made to the net alone.
/// Rows are made on threads side by side; where no thread can be started, one after another. It fails only if there is no memory.
pub fn what_if<G: Progress + Sync, R: Threads + Sync>(
    rt: &R,
    alloc: Global,
    net: &Net,
    lists: &[Vec<Change>],
    progress: &G,
) -> Result<Vec<Costs>, AllocError>
    requires { AreChanges (instance_of_rows net.now) lists.now }
    ensures { IfOk result (λ rows. AreRowsOf net.now lists.now rows.items) }
{
    let mut made = vec![in alloc; None; lists.len()]?;
    make_all(rt, alloc, net, lists, progress, &mut made);
    all_made(alloc, &made)
}

// Makes each row, on threads side by side, and puts it in its place, if there is memory for it.
fn make_all<G: Progress + Sync, R: Threads + Sync>(
    rt: &R,
    alloc: Global,
    net: &Net,
    lists: &[Vec<Change>],
    progress: &G,
    made: &mut [Option<Costs>],
)
    requires changes { AreChanges (instance_of_rows net.now) lists.now }
    requires long { length made.old ≡ length lists.now }
    ensures long { length made.new ≡ length made.old }
    ensures each { (i : ℕ) (d : Option TheCosts) → i < length lists.now → IfSome (slice_index_or made.new i d) (IsRowAt net.now lists.now i) }
{
    for_each_mut(
        rt,
        made,
        THREADS,
        &|at, slot| *slot = row_at(alloc, net, lists, progress, at),
    );
}

// The row of the list of this number, if there was memory for it.
fn row_at<G: Progress>(
    alloc: Global,
    net: &Net,
    lists: &[Vec<Change>],
    progress: &G,
    at: usize,
) -> Option<Costs>
    requires changes { AreChanges (instance_of_rows net.now) lists.now }
    requires at { at < length lists.now }
    ensures { IfSome result (IsRowAt net.now lists.now at) }
{
    let costs = costs_with(alloc, net, &lists[at]).ok()?;
    progress.row_made();
    Some(costs)
}

// What the waiting costs by each order in the net with these changes.
fn costs_with(alloc: Global, net: &Net, changes: &[Change]) -> Result<Costs, AllocError>
    requires { All (IsChangeOf (instance_of_rows net.now)) changes.now }
    ensures { IfOk result (AreCosts (instance_of_rows (changed_net net.now changes.now))) }
{
    let wide = changed(alloc, net, changes)?;
    costs_of(alloc, &wide)
}

// All rows, unless there was no memory for one.
fn all_made(alloc: Global, made: &[Option<Costs>]) -> Result<Vec<Costs>, AllocError>
    ensures { IfOk result (λ all. map Some all.items ≡ made.now) }
{
    let mut all = Vec::with_capacity(alloc, made.len())?;
    for costs in made {
        match costs {
            Some(costs) => all.push(*costs)?,
            None => return Err(AllocError),
        }
    }
    Ok(all)
}
