//! Flows and waits of a refined level, changed to what its potentials ask for. What then comes and doesn't go on, less what goes on and didn't come, is a node's imbalance.

use crate::columns::{Column, Columns};
use crate::levels::level::{Level, as_imbalance};

/// Changes the flow and the wait of each node.
pub fn settle(level: &mut Level, columns: &Columns) {
    for block in 0..level.blocks {
        settle_block(level, columns, block);
    }
}

fn settle_block(level: &mut Level, columns: &Columns, block: u32) {
    for number in 0..columns.len() {
        let column = columns.column(number);
        if column.is_row() {
            settle_flow_of_row(level, block, number, &column);
            settle_wait(level, block, number, &column);
        } else {
            settle_unit(level, block, number, &column);
        }
    }
}

// Nothing goes on from a row where that isn't its cheapest path.
fn settle_flow_of_row(level: &mut Level, block: u32, number: u32, column: &Column) {
    let row = level.at(block, number);
    let node = level.node(row);
    let Some(unit) = level.above(block, column) else {
        return;
    };
    let above = level.node(unit);
    if node.flow > 0 && (above.potential > node.potential || above.cap == 0) {
        level.set_flow(row, 0);
        level.add_imbalance(row, as_imbalance(node.flow));
        level.add_imbalance(unit, as_imbalance(node.flow).saturating_neg());
    }
}

// Nothing waits in a row where that isn't its cheapest path.
fn settle_wait(level: &mut Level, block: u32, number: u32, column: &Column) {
    let row = level.at(block, number);
    let node = level.node(row);
    let waits = match level.potential_of_waiting(row, column) {
        Some(potential) => potential <= node.potential,
        None => false,
    };
    if node.wait > 0 && !waits {
        level.set_wait(row, 0);
        level.add_imbalance(row, as_imbalance(node.wait));
        if let Some(next) = level.next(row) {
            level.add_imbalance(next, as_imbalance(node.wait).saturating_neg());
        }
    }
}

// As much as may goes on from a unit that costs more than the one above it, and nothing from one that costs less.
fn settle_unit(level: &mut Level, block: u32, number: u32, column: &Column) {
    let unit = level.at(block, number);
    let node = level.node(unit);
    let potential = level.potential_above(block, column);
    let flow = if node.potential > potential {
        node.cap
    } else if node.potential < potential {
        0
    } else {
        node.flow.min(node.cap)
    };
    if flow == node.flow {
        return;
    }
    let more = as_imbalance(flow).saturating_sub(as_imbalance(node.flow));
    level.set_flow(unit, flow);
    level.add_imbalance(unit, more.saturating_neg());
    if let Some(above) = level.above(block, column) {
        level.add_imbalance(above, more);
    }
}
