//! Potentials of a refined level, changed so that nothing gets cheaper by going on from a row, and that what waits waits at no loss.

use crate::columns::{Column, Columns};
use crate::levels::level::Level;
use std::alloc::{AllocError, Global};

/// In so many blocks one after another a row's potentials are raised where some wait. In the next block they aren't, so that what
/// was raised wrongly isn't carried on for ever.
const RUN: u32 = 4;

/// Potentials of a block before they were changed, and in how many blocks up to it each row's were raised, by column.
#[derive(Drop)]
struct Raising {
    before: Vec<i64>,
    runs: Vec<u32>,
}

/// Changes the potentials of all blocks, from the last to the first.
pub fn raise_potentials(
    alloc: Global,
    level: &mut Level,
    columns: &Columns,
) -> Result<(), AllocError> {
    let width = columns.len() as usize;
    let mut raising = Raising {
        before: vec![in alloc; 0; width]?,
        runs: vec![in alloc; 0; width]?,
    };
    for block in (0..level.blocks).rev() {
        raising.keep(level, columns, block);
        raising.raise_by_rows(level, columns, block);
        raising.raise_up(level, columns, block);
        raising.raise_down(level, columns, block);
        raising.settle_rows(level, columns, block);
    }
    Ok(())
}

impl Raising {
    // Keeps the potentials of a block.
    fn keep(&mut self, level: &Level, columns: &Columns, block: u32) {
        let first = level.at(block, 0);
        for number in 0..columns.len() {
            let potential = level.node(first.saturating_add(number)).potential;
            if let Some(before) = self.before.get_mut(number as usize) {
                *before = potential;
            }
        }
    }

    fn before(&self, number: u32) -> i64 {
        self.before.get(number as usize).copied().unwrap_or(0)
    }

    fn run(&self, number: u32) -> u32 {
        self.runs.get(number as usize).copied().unwrap_or(0)
    }

    // Raises the potential of a unit to what those cost that wait in its rows, so that they wait.
    fn raise_by_rows(&self, level: &mut Level, columns: &Columns, block: u32) {
        for number in 0..columns.len() {
            let column = columns.column(number);
            if column.is_row() && self.run(number) <= RUN {
                raise_by_row(level, block, number, &column);
            }
        }
    }

    // A unit whose potential was raised, and was not above that of the unit above it, raises that one too.
    fn raise_up(&self, level: &mut Level, columns: &Columns, block: u32) {
        for number in (0..columns.len()).rev() {
            let column = columns.column(number);
            if let Some(above) = column.above
                && !column.is_row()
            {
                self.raise_above(level, block, number, above);
            }
        }
    }

    fn raise_above(&self, level: &mut Level, block: u32, number: u32, above: u32) {
        let potential = level.node(level.at(block, number)).potential;
        let before = self.before(number);
        if potential > before && before <= self.before(above) {
            level.raise_potential(level.at(block, above), potential);
        }
    }

    // A unit whose potential was raised raises those right below it that were not below it before.
    fn raise_down(&self, level: &mut Level, columns: &Columns, block: u32) {
        for number in 0..columns.len() {
            let column = columns.column(number);
            if let Some(above) = column.above
                && !column.is_row()
            {
                self.raise_below(level, block, number, above);
            }
        }
    }

    fn raise_below(&self, level: &mut Level, block: u32, number: u32, above: u32) {
        let potential = level.node(level.at(block, above)).potential;
        let before = self.before(above);
        let below = level.at(block, number);
        if potential > before && level.node(below).potential >= before {
            level.raise_potential(below, potential);
        }
    }

    // Gives each row the potential of the cheaper of its paths.
    fn settle_rows(&mut self, level: &mut Level, columns: &Columns, block: u32) {
        for number in 0..columns.len() {
            let column = columns.column(number);
            if column.is_row() {
                self.settle_row(level, block, number, &column);
            }
        }
    }

    fn settle_row(&mut self, level: &mut Level, block: u32, number: u32, column: &Column) {
        let row = level.at(block, number);
        let node = level.node(row);
        let potential = cheapest(level, block, row, column).unwrap_or(node.potential);
        let raised = potential > node.potential && node.wait > 0;
        let run = if raised {
            self.run(number).saturating_add(1)
        } else {
            0
        };
        let too_long = run > RUN;
        if !too_long {
            level.set_potential(row, potential);
        }
        if let Some(old) = self.runs.get_mut(number as usize) {
            *old = if too_long { 0 } else { run };
        }
    }
}

// Raises the potential of a row's unit to what those cost that wait in it.
fn raise_by_row(level: &mut Level, block: u32, number: u32, column: &Column) {
    let row = level.at(block, number);
    if level.node(row).wait == 0 {
        return;
    }
    if let Some(potential) = level.potential_of_waiting(row, column)
        && let Some(unit) = level.above(block, column)
        && level.node(unit).cap > 0
    {
        level.raise_potential(unit, potential);
    }
}

// What the cheaper path on from a row costs, if it has one.
fn cheapest(level: &Level, block: u32, row: u32, column: &Column) -> Option<i64> {
    let waiting = level.potential_of_waiting(row, column);
    let unit = level.node(level.above(block, column)?);
    if unit.cap == 0 {
        return waiting;
    }
    match waiting {
        Some(potential) => Some(potential.min(unit.potential)),
        None => Some(unit.potential),
    }
}
