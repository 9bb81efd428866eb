//! The least potentials of a round that hold back whoever waits in it, where those of the next round are known.

use crate::columns::{Column, Columns};
use crate::repair::time_net::{NEVER, TimeNet};

// The need of a unit for which nobody waits.
const NO_NEED: i32 = i32::MIN;

/// Takes all needs away.
pub fn clear_needs(needs: &mut [i32]) {
    for need in needs.iter_mut() {
        *need = NO_NEED;
    }
}

/// Sets the potentials of a round. The list has a place for each column, and what each unit needs at least for those who wait at it
/// and aren't in a row.
pub fn price_round(net: &mut TimeNet, columns: &Columns, round: u32, needs: &mut [i32]) {
    find_needs(net, columns, round, needs);
    for number in 0..columns.len() {
        let column = columns.column(number);
        let potential = if column.is_row() {
            potential_of_row(net, round, number, &column)
        } else {
            potential_of_unit(net, round, number, &column, need_at(needs, number))
        };
        net.set_potential(net.at(round, number), potential);
    }
}

// Which potential of each unit holds back those who wait below it. From the last column to the first, so that what is below a unit
// is done before it.
fn find_needs(net: &TimeNet, columns: &Columns, round: u32, needs: &mut [i32]) {
    for number in (0..columns.len()).rev() {
        let column = columns.column(number);
        if !column.is_row() {
            let least = need_at(needs, number);
            let need = need_of_unit(net, columns, round, &column, needs).max(least);
            if let Some(old) = needs.get_mut(number as usize) {
                *old = need;
            }
        }
    }
}

fn need_of_unit(
    net: &TimeNet,
    columns: &Columns,
    round: u32,
    column: &Column,
    needs: &[i32],
) -> i32 {
    let cap = net.cap(round, column);
    let mut need = NO_NEED;
    for number in columns.below(column) {
        let below = columns.column(*number);
        need = need.max(if below.is_row() {
            need_of_row(net, net.at(round, *number), &below, cap)
        } else {
            need_through(net, round, *number, &below, needs)
        });
    }
    need
}

// What it costs those who wait at a row to be sent later, if its unit has a cap.
fn need_of_row(net: &TimeNet, number: u32, row: &Column, cap: u32) -> i32 {
    if cap > 0 && net.node(number).wait > 0 {
        net.potential_of_waiting(number, row).unwrap_or(NO_NEED)
    } else {
        NO_NEED
    }
}

// The need of a unit which is passed on to the one above, as long as the unit isn't full.
fn need_through(net: &TimeNet, round: u32, number: u32, unit: &Column, needs: &[i32]) -> i32 {
    if net.node(net.at(round, number)).flow < net.cap(round, unit) {
        need_at(needs, number)
    } else {
        NO_NEED
    }
}

fn need_at(needs: &[i32], number: u32) -> i32 {
    needs.get(number as usize).copied().unwrap_or(NO_NEED)
}

// A row's requests are sent now, or later.
fn potential_of_row(net: &TimeNet, round: u32, number: u32, column: &Column) -> i32 {
    let now = if net.cap(round, column) > 0 {
        net.potential_above(round, column)
    } else {
        NEVER
    };
    match net.potential_of_waiting(net.at(round, number), column) {
        Some(later) => now.min(later),
        None => now,
    }
}

// A unit that is full may cost more than the one above it.
fn potential_of_unit(net: &TimeNet, round: u32, number: u32, column: &Column, need: i32) -> i32 {
    let above = net.potential_above(round, column);
    if net.node(net.at(round, number)).flow < net.cap(round, column) {
        above
    } else {
        above.max(need)
    }
}
