//! Potentials of units that take nothing in a block. No search reaches such a unit, so its potential means nothing there. The
//! potentials of both halves of the block are interpolated from it and the next block's, so an arbitrary one would spread to rows.

use crate::columns::{Column, Columns};
use crate::levels::level::Level;

/// Gives each unit that takes nothing in a block the highest of three potentials: that of the unit above it, those of the rows right
/// below it in which some wait, and those of the units right below it, which take nothing either.
pub fn price_stopped(level: &mut Level, columns: &Columns) {
    for block in 0..level.blocks {
        clear(level, columns, block);
        raise_by_those_below(level, columns, block);
        raise_by_those_above(level, columns, block);
    }
}

// Takes the potentials of units that take nothing away.
fn clear(level: &mut Level, columns: &Columns, block: u32) {
    for number in 0..columns.len() {
        let unit = level.at(block, number);
        if is_stopped(level, unit) {
            level.set_potential(unit, 0);
        }
    }
}

// From the last column to the first, so that what is below a unit is done before it.
fn raise_by_those_below(level: &mut Level, columns: &Columns, block: u32) {
    for number in (0..columns.len()).rev() {
        let column = columns.column(number);
        let here = level.at(block, number);
        if let Some(above) = level.above(block, &column)
            && is_stopped(level, above)
            && counts(level, here, &column)
        {
            level.raise_potential(above, level.node(here).potential);
        }
    }
}

// Whether the potential of a node counts for a unit above it that takes nothing.
fn counts(level: &Level, number: u32, column: &Column) -> bool {
    !column.is_row() || level.node(number).wait > 0
}

// From the first column to the last, so that what is above a unit is done before it.
fn raise_by_those_above(level: &mut Level, columns: &Columns, block: u32) {
    for number in 0..columns.len() {
        let column = columns.column(number);
        let unit = level.at(block, number);
        if let Some(above) = level.above(block, &column)
            && is_stopped(level, unit)
        {
            level.raise_potential(unit, level.node(above).potential);
        }
    }
}

// Whether nothing may go on from a node. From a row there always may.
fn is_stopped(level: &Level, number: u32) -> bool {
    level.node(number).cap == 0
}
