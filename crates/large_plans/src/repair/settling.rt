//! Flows and waits of a round, changed to what its potentials ask for (complementary slackness). What then comes and doesn't go on,
//! less what goes on and didn't come, is a node's imbalance.

use crate::columns::{Column, Columns};
use crate::repair::time_net::{TimeNet, as_imbalance};

/// Changes the flow and the wait of each node of a round. Says whether any did change.
pub fn settle_round(net: &mut TimeNet, columns: &Columns, round: u32) -> bool {
    let mut changed = false;
    for number in 0..columns.len() {
        let column = columns.column(number);
        changed |= if column.is_row() {
            settle_row(net, round, number, &column)
        } else {
            settle_unit(net, round, number, &column)
        };
    }
    changed
}

fn settle_row(net: &mut TimeNet, round: u32, number: u32, column: &Column) -> bool {
    let sent = settle_flow_of_row(net, round, number, column);
    let waited = settle_wait(net, net.at(round, number), column);
    sent || waited
}

// Nothing goes on from a row where that isn't its cheapest path.
fn settle_flow_of_row(net: &mut TimeNet, round: u32, number: u32, column: &Column) -> bool {
    let row = net.at(round, number);
    let node = net.node(row);
    let Some(above) = column.above else {
        return false;
    };
    let unit = net.at(round, above);
    let is_best = net.cap(round, column) > 0 && net.node(unit).potential <= node.potential;
    if node.flow == 0 || is_best {
        return false;
    }
    net.set_flow(row, 0);
    net.add_imbalance(row, as_imbalance(node.flow));
    net.add_imbalance(unit, as_imbalance(node.flow).saturating_neg());
    true
}

// Nothing waits in a row where that isn't its cheapest path.
fn settle_wait(net: &mut TimeNet, row: u32, column: &Column) -> bool {
    let node = net.node(row);
    let is_best = match net.potential_of_waiting(row, column) {
        Some(potential) => potential <= node.potential,
        None => false,
    };
    if node.wait == 0 || is_best {
        return false;
    }
    net.set_wait(row, 0);
    net.add_imbalance(row, as_imbalance(node.wait));
    if let Some(next) = net.next(row) {
        net.add_imbalance(next, as_imbalance(node.wait).saturating_neg());
    }
    true
}

// As much as may goes on from a unit that costs more than the one above it, and nothing from one that costs less.
fn settle_unit(net: &mut TimeNet, round: u32, number: u32, column: &Column) -> bool {
    let unit = net.at(round, number);
    let node = net.node(unit);
    let potential = net.potential_above(round, column);
    let cap = net.cap(round, column);
    let flow = if node.potential > potential {
        cap
    } else if node.potential < potential {
        0
    } else {
        node.flow.min(cap)
    };
    if flow == node.flow {
        return false;
    }
    let more = as_imbalance(flow).saturating_sub(as_imbalance(node.flow));
    net.set_flow(unit, flow);
    net.add_imbalance(unit, more.saturating_neg());
    if let Some(above) = column.above {
        net.add_imbalance(net.at(round, above), more);
    }
    true
}
