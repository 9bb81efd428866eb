//! The order by weight: in each round the heaviest requests that wait are sent first, and of these those of the device at which
//! most wait.

use crate::columns::Columns;
use crate::network::{Network, NetworkStay};
use crate::repair::time_net::TimeNet;
use std::alloc::{AllocError, Global};
use std::cmp::Reverse;

// A row of which requests wait in a round. The one that is sent first comes first.
#[derive(Clone, Copy, PartialEq, Eq, PartialOrd, Ord)]
struct Candidate {
    weight: Reverse<u32>,
    // How many wait at its device.
    waiting: Reverse<u32>,
    column: u32,
}

/// Counts the stays that come to each row in each round, as imbalances. Says whether each stay has a row and comes and ends in a
/// round that there is.
pub fn add_arrivals(net: &mut TimeNet, columns: &Columns, network: &Network) -> bool {
    for stay in &network.stays {
        let Some(row) = columns.row_of(stay) else {
            return false;
        };
        if !is_within(stay, network.rounds) {
            return false;
        }
        net.add_imbalance(net.at(stay.arrival, row), 1);
    }
    true
}

// Whether a stay has a round in which it may be sent.
fn is_within(stay: &NetworkStay, rounds: u32) -> bool {
    stay.arrival <= stay.last && stay.last < rounds
}

/// Sends what comes, round by round, as far as the caps let it. What isn't sent waits, also in the last round. No node has an
/// imbalance then.
pub fn send_by_weight(
    alloc: Global,
    net: &mut TimeNet,
    columns: &Columns,
) -> Result<(), AllocError> {
    let mut order = Order::new(alloc, columns)?;
    for round in 0..net.rounds {
        order.begin(net, columns, round)?;
        order.send(net, columns, round);
    }
    Ok(())
}

/// Which rows are sent first in a round.
#[derive(Drop)]
pub struct Order {
    // How many wait at each unit, by column.
    waiting: Vec<u32>,
    candidates: Vec<Candidate>,
}

impl Order {
    /// The order of a round in which none wait.
    pub fn new(alloc: Global, columns: &Columns) -> Result<Order, AllocError> {
        Ok(Order {
            waiting: vec![in alloc; 0; columns.len() as usize]?,
            candidates: Vec::new(alloc),
        })
    }

    /// Lets those who waited in the round before, and those who come, wait in this round, and orders their rows.
    pub fn begin(
        &mut self,
        net: &mut TimeNet,
        columns: &Columns,
        round: u32,
    ) -> Result<(), AllocError> {
        self.receive(net, columns, round);
        self.list(net, columns, round)?;
        self.candidates.sort_unstable();
        Ok(())
    }

    fn receive(&mut self, net: &mut TimeNet, columns: &Columns, round: u32) {
        for number in 0..columns.len() {
            let column = columns.column(number);
            if let Some(unit) = column.above
                && column.is_row()
            {
                let come = receive_row(net, net.at(round, number));
                self.add_waiting(unit, come);
            }
        }
    }

    // Lists the rows in which some wait whose unit isn't stopped.
    fn list(&mut self, net: &TimeNet, columns: &Columns, round: u32) -> Result<(), AllocError> {
        self.candidates.clear();
        for number in 0..columns.len() {
            let column = columns.column(number);
            if let Some(unit) = column.above
                && column.is_row()
                && net.node(net.at(round, number)).wait > 0
                && net.cap(round, &column) > 0
            {
                let waiting = self.waiting.get(unit as usize).copied().unwrap_or(0);
                self.candidates.push(Candidate {
                    weight: Reverse(column.weight),
                    waiting: Reverse(waiting),
                    column: number,
                })?;
            }
        }
        Ok(())
    }

    /// Sends from one row after the other as many as there is room for.
    pub fn send(&mut self, net: &mut TimeNet, columns: &Columns, round: u32) {
        let waiting = &mut self.waiting;
        for candidate in &self.candidates {
            let row = candidate.column;
            let sent = send_row(net, columns, round, row);
            take_waiting(waiting, columns, row, sent);
        }
    }

    /// Takes back what rows send in a round, which then waits.
    pub fn take_back(&mut self, net: &mut TimeNet, columns: &Columns, round: u32) {
        for number in 0..columns.len() {
            let column = columns.column(number);
            if let Some(unit) = column.above
                && column.is_row()
            {
                let count = take_back_row(net, columns, round, number);
                self.add_waiting(unit, count);
            }
        }
    }

    /// Takes one out of those that wait in a row.
    pub fn take_one(&mut self, net: &mut TimeNet, columns: &Columns, round: u32, row: u32) {
        net.take_waits(row, round, round.saturating_add(1));
        take_waiting(&mut self.waiting, columns, row, 1);
    }

    fn add_waiting(&mut self, unit: u32, come: u32) {
        if let Some(waiting) = self.waiting.get_mut(unit as usize) {
            *waiting = waiting.saturating_add(come);
        }
    }
}

// Lets those of a row who waited in the round before, and those who come, wait in this round. Answers how many come.
fn receive_row(net: &mut TimeNet, number: u32) -> u32 {
    let waited = match number.checked_sub(net.width) {
        Some(previous) => net.node(previous).wait,
        None => 0,
    };
    let come = net.take_imbalance(number);
    net.set_wait(number, waited.saturating_add(come));
    come
}

// Sends from a row as many as there is room for, beside those that it sends already, and answers how many.
fn send_row(net: &mut TimeNet, columns: &Columns, round: u32, row: u32) -> u32 {
    let number = net.at(round, row);
    let waiting = net.node(number).wait;
    let sent = waiting.min(net.room(columns, round, row));
    if sent > 0 {
        net.set_wait(number, waiting.saturating_sub(sent));
        net.add_flow(columns, round, row, sent);
    }
    sent
}

// Takes back what a row sends in a round, and answers how many.
fn take_back_row(net: &mut TimeNet, columns: &Columns, round: u32, row: u32) -> u32 {
    let number = net.at(round, row);
    let node = net.node(number);
    if node.flow > 0 {
        net.set_wait(number, node.wait.saturating_add(node.flow));
        net.take_flow(columns, round, row, node.flow);
    }
    node.flow
}

fn take_waiting(waiting: &mut [u32], columns: &Columns, row: u32, sent: u32) {
    if let Some(unit) = columns.column(row).above
        && let Some(waiting) = waiting.get_mut(unit as usize)
    {
        *waiting = waiting.saturating_sub(sent);
    }
}
