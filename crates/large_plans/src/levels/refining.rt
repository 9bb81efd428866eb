//! A level of time with blocks half as long as those of the level before, with what that one says as a beginning.

use crate::columns::Columns;
use crate::levels::level::Level;
use crate::levels::outline::Outline;
use crate::levels::parts::Part;
use std::alloc::{AllocError, Global};

/// The level of an outline, with potentials, flows and waits of the level before, whose blocks are twice as long, and no imbalance.
pub fn refined(
    alloc: Global,
    part: &Part,
    outline: &Outline,
    whole: &Level,
) -> Result<Level, AllocError> {
    let mut level = Level::of(alloc, outline)?;
    for block in 0..whole.blocks {
        split_potentials(&part.columns, whole, &mut level, block);
        split_flows(part, outline, whole, &mut level, block);
    }
    Ok(level)
}

// A potential is twice the old one in the first half of a block, and halfway to the next block in the second half.
fn split_potentials(columns: &Columns, whole: &Level, level: &mut Level, block: u32) {
    for column in 0..columns.len() {
        let number = whole.at(block, column);
        let potential = whole.node(number).potential;
        let next = match whole.next(number) {
            Some(next) => whole.node(next).potential,
            None => potential,
        };
        let first = level.at(block.saturating_mul(2), column);
        level.set_potential(first, potential.saturating_add(potential));
        if let Some(second) = level.next(first) {
            level.set_potential(second, potential.saturating_add(next));
        }
    }
}

// Gives the flows of a block to its halves. The heaviest rows come first, so that they are sent early where there is little room.
fn split_flows(part: &Part, outline: &Outline, whole: &Level, level: &mut Level, block: u32) {
    for column in &part.heaviest {
        split_row(&part.columns, outline, whole, level, block, *column);
    }
}

// Gives as much of a row's flow in a block to its first half as has come by then and has room there.
fn split_row(
    columns: &Columns,
    outline: &Outline,
    whole: &Level,
    level: &mut Level,
    block: u32,
    column: u32,
) {
    let number = whole.at(block, column);
    let node = whole.node(number);
    let waited = match whole.previous(number) {
        Some(previous) => whole.node(previous).wait,
        None => 0,
    };
    let half = block.saturating_mul(2);
    let first = level.at(half, column);
    let came = waited.saturating_add(outline.comes(first));
    let Some(second) = level.next(first) else {
        level.add_flow(columns, half, column, node.flow);
        level.set_wait(first, came.saturating_sub(node.flow));
        return;
    };
    let flow = node.flow.min(came).min(level.room(columns, half, column));
    level.add_flow(columns, half, column, flow);
    level.set_wait(first, came.saturating_sub(flow));
    level.add_flow(
        columns,
        half.saturating_add(1),
        column,
        node.flow.saturating_sub(flow),
    );
    level.set_wait(second, node.wait);
}
