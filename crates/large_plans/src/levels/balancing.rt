//! Repairs the imbalances of a level by shortest paths.

use crate::columns::Columns;
use crate::levels::level::Level;
use crate::levels::passing::{Direction, pass};
use crate::levels::search::{Ends, Found, Search, is_queue};
use crate::levels::search_direction::SearchDirection;
use std::alloc::{AllocError, Global};

/// The directions of the passes, in order.
const PASSES: [Direction; 3] = [Direction::Forward, Direction::Backward, Direction::Forward];

/// How many nodes a search to a queue may take.
const QUEUE_BUDGET: u64 = 1024;

/// How many nodes other searches may take, one time after another. At last they have no such budget.
const BUDGETS: [u64; 2] = [64, 256];

/// How many nodes a search may take without a budget, for each node that there is. With good potentials it takes about one.
const TURNS: u64 = 64;

/// Nodes with an imbalance above 0, and below.
#[derive(Drop)]
pub struct Needs {
    pushes: Vec<u32>,
    pulls: Vec<u32>,
}

impl Needs {
    /// Those of a level.
    pub fn of(alloc: Global, level: &Level) -> Result<Needs, AllocError> {
        let mut needs = Needs {
            pushes: Vec::new(alloc),
            pulls: Vec::new(alloc),
        };
        for number in 0..level.len() {
            let imbalance = level.node(number).imbalance;
            if imbalance > 0 {
                needs.pushes.push(number)?;
            }
            if imbalance < 0 {
                needs.pulls.push(number)?;
            }
        }
        Ok(needs)
    }

    // Those of them that still have one.
    fn left(&self, alloc: Global, level: &Level) -> Result<Needs, AllocError> {
        Ok(Needs {
            pushes: left(alloc, level, &self.pushes, SearchDirection::Push)?,
            pulls: left(alloc, level, &self.pulls, SearchDirection::Pull)?,
        })
    }

    fn len(&self) -> usize {
        self.pushes.len().saturating_add(self.pulls.len())
    }
}

/// Moves all imbalance of a refined level, on which there are queues, and says whether it could.
pub fn repair(
    alloc: Global,
    level: &mut Level,
    columns: &Columns,
    search: &mut Search,
) -> Result<bool, AllocError> {
    let mut needs = Needs::of(alloc, level)?;
    for direction in PASSES {
        if needs.len() == 0 {
            break;
        }
        to_queues(level, columns, search, &needs.pushes, SearchDirection::Push)?;
        to_queues(level, columns, search, &needs.pulls, SearchDirection::Pull)?;
        pass(level, columns, search, direction)?;
        needs = Needs::of(alloc, level)?;
    }
    finish(alloc, level, columns, search, needs)
}

// Moves the imbalance of these nodes to where it is needed, or to queues.
fn to_queues(
    level: &mut Level,
    columns: &Columns,
    search: &mut Search,
    needs: &[u32],
    direction: SearchDirection,
) -> Result<(), AllocError> {
    for number in needs.iter().rev() {
        if !is_queue(level, *number) {
            search.move_all(
                level,
                columns,
                *number,
                direction,
                Ends::AtQueue,
                QUEUE_BUDGET,
            )?;
        }
    }
    Ok(())
}

/// Moves all imbalance of a level, which these nodes have, and says whether it could.
pub fn finish(
    alloc: Global,
    level: &mut Level,
    columns: &Columns,
    search: &mut Search,
    mut needs: Needs,
) -> Result<bool, AllocError> {
    for budget in BUDGETS {
        if !move_some(level, columns, search, &needs, budget)? {
            return Ok(false);
        }
        needs = needs.left(alloc, level)?;
    }
    let no_budget = u64::from(level.len()).saturating_mul(TURNS);
    if !move_some(level, columns, search, &needs, no_budget)? {
        return Ok(false);
    }
    Ok(needs.left(alloc, level)?.len() == 0)
}

// Moves what it can of the imbalance of these nodes. Says whether there may be a path for all that is left.
fn move_some(
    level: &mut Level,
    columns: &Columns,
    search: &mut Search,
    needs: &Needs,
    budget: u64,
) -> Result<bool, AllocError> {
    Ok(
        to_needs(
            level,
            columns,
            search,
            &needs.pushes,
            SearchDirection::Push,
            budget,
        )? && to_needs(
            level,
            columns,
            search,
            &needs.pulls,
            SearchDirection::Pull,
            budget,
        )?,
    )
}

// Moves the imbalance of these nodes to where it is needed. Says whether there may be a path for all that is left.
fn to_needs(
    level: &mut Level,
    columns: &Columns,
    search: &mut Search,
    needs: &[u32],
    direction: SearchDirection,
    budget: u64,
) -> Result<bool, AllocError> {
    for number in needs.iter().rev() {
        let found = search.move_all(level, columns, *number, direction, Ends::AtNeed, budget)?;
        if matches!(&found, Found::NoPath) {
            return Ok(false);
        }
    }
    Ok(true)
}

// Those of the nodes from which a search in this direction still starts.
fn left(
    alloc: Global,
    level: &Level,
    needs: &[u32],
    direction: SearchDirection,
) -> Result<Vec<u32>, AllocError> {
    let mut left = Vec::new(alloc);
    for number in needs {
        if direction.starts(&level.node(*number)) {
            left.push(*number)?;
        }
    }
    Ok(left)
}
