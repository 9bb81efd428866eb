//! One pass over all blocks, which carries imbalances along rows to where they are needed.

use crate::columns::Columns;
use crate::levels::level::{Level, as_imbalance};
use crate::levels::search::{Ends, Search};
use crate::levels::search_direction::SearchDirection;
use std::alloc::AllocError;

/// How many nodes a search may take in a pass.
const BUDGET: u64 = 32;

// Nodes that follow one another.
#[derive(Clone, Copy)]
struct Span {
    // The first of them.
    first: u32,
    // The one after the last of them.
    end: u32,
}

/// The direction of a pass.
#[derive(Clone, Copy)]
pub enum Direction {
    /// From the first block to the last.
    Forward,
    /// From the last to the first.
    Backward,
}

/// Goes over all blocks.
pub fn pass(
    level: &mut Level,
    columns: &Columns,
    search: &mut Search,
    direction: Direction,
) -> Result<(), AllocError> {
    for turn in 0..level.blocks.saturating_sub(1) {
        let block = match direction {
            Direction::Forward => turn,
            Direction::Backward => level.blocks.saturating_sub(1).saturating_sub(turn),
        };
        pass_block(level, columns, search, direction, block)?;
    }
    Ok(())
}

fn pass_block(
    level: &mut Level,
    columns: &Columns,
    search: &mut Search,
    direction: Direction,
    block: u32,
) -> Result<(), AllocError> {
    let first = level.at(block, 0);
    let span = Span {
        first,
        end: first.saturating_add(columns.len()),
    };
    let pushes = any_starts(level, span, SearchDirection::Push);
    let pulls = any_starts(level, span, SearchDirection::Pull);
    if pushes && pulls {
        meet(level, columns, search, span)?;
    }
    if pushes || pulls {
        carry_all(level, columns, span, direction);
    }
    Ok(())
}

// Whether a search in this direction starts at any of these nodes.
fn any_starts(level: &Level, span: Span, direction: SearchDirection) -> bool {
    for number in span.first..span.end {
        if direction.starts(&level.node(number)) {
            return true;
        }
    }
    false
}

// Moves imbalances to nodes nearby that need them.
fn meet(
    level: &mut Level,
    columns: &Columns,
    search: &mut Search,
    span: Span,
) -> Result<(), AllocError> {
    for number in span.first..span.end {
        search.move_all(
            level,
            columns,
            number,
            SearchDirection::Push,
            Ends::AtNeed,
            BUDGET,
        )?;
    }
    Ok(())
}

// Carries the imbalance of these rows one block on.
fn carry_all(level: &mut Level, columns: &Columns, span: Span, direction: Direction) {
    for number in span.first..span.end {
        let column = columns.column(number.saturating_sub(span.first));
        if level.node(number).imbalance == 0 || !column.is_row() {
            continue;
        }
        match direction {
            Direction::Forward => carry_on(level, number, i64::from(column.weight)),
            Direction::Backward => carry_back(level, number, i64::from(column.weight)),
        }
    }
}

// Carries a row's imbalance to the next block.
fn carry_on(level: &mut Level, number: u32, weight: i64) {
    let Some(next) = level.next(number) else {
        return;
    };
    let node = level.node(number);
    if node.imbalance > 0 {
        if level.node(next).potential.saturating_add(weight) == node.potential {
            let count = node.imbalance.unsigned_abs();
            level.set_wait(number, node.wait.saturating_add(count));
            level.set_imbalance(number, 0);
            level.add_imbalance(next, node.imbalance);
        }
        return;
    }
    let count = node.imbalance.unsigned_abs().min(node.wait);
    level.set_wait(number, node.wait.saturating_sub(count));
    level.add_imbalance(number, as_imbalance(count));
    level.add_imbalance(next, as_imbalance(count).saturating_neg());
}

// Carries a row's imbalance to the block before.
fn carry_back(level: &mut Level, number: u32, weight: i64) {
    let Some(previous) = level.previous(number) else {
        return;
    };
    let node = level.node(number);
    let before = level.node(previous);
    if node.imbalance < 0 {
        if node.potential.saturating_add(weight) == before.potential {
            let count = node.imbalance.unsigned_abs();
            level.set_wait(previous, before.wait.saturating_add(count));
            level.set_imbalance(number, 0);
            level.add_imbalance(previous, node.imbalance);
        }
        return;
    }
    let count = node.imbalance.unsigned_abs().min(before.wait);
    level.set_wait(previous, before.wait.saturating_sub(count));
    level.add_imbalance(number, as_imbalance(count).saturating_neg());
    level.add_imbalance(previous, as_imbalance(count));
}
