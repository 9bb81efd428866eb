//! The order by weight where stays end early: who would miss its end is sent in its last round, before the others, and stands alone.

use crate::columns::Columns;
use crate::network::Network;
use crate::repair::lone_stays::LoneStay;
use crate::repair::queues::{Arrivals, Queues};
use crate::repair::sending::Order;
use crate::repair::time_net::{NEVER, TimeNet};
use std::alloc::{AllocError, Global};
use std::cmp::Reverse;

/// How often a round is sent anew to make room for those that end in it. Each time others may fall short.
const ATTEMPTS: u32 = 6;

// The stays of a row that end in a round.
#[derive(Clone, Copy)]
struct RowEnds {
    // Where they begin in the list of all that end in the round.
    first: u32,
    count: u32,
    // How many are sent before all others.
    forced: u32,
}

// A stay that ends in a round in which its row doesn't send enough. The heaviest comes first.
#[derive(Clone, Copy, PartialEq, Eq, PartialOrd, Ord)]
struct Short {
    weight: Reverse<u32>,
    row: u32,
}

// A stay that stands alone from the start.
#[derive(Clone, Copy)]
struct Early {
    stay: u32,
    sent: Option<u32>,
}

/// Sends what comes, round by round, as far as the caps let it. What isn't sent waits, also in the last round, but for stays that
/// would miss their end: these stand alone. Only those of them that aren't sent have an imbalance.
pub fn send_before_ends(
    alloc: Global,
    net: &mut TimeNet,
    columns: &Columns,
    network: &Network,
) -> Result<(), AllocError> {
    let mut order = Order::new(alloc, columns)?;
    let mut ends = Ends::of(alloc, columns, network)?;
    for round in 0..net.rounds {
        order.begin(net, columns, round)?;
        order.send(net, columns, round);
        ends.receive(net, columns, network, round)?;
        ends.make_room(net, columns, &mut order, round)?;
        ends.settle(net, columns, &mut order, round)?;
    }
    ends.add_all(net, columns, network)
}

// Adds the node of a stay that stands alone. Its row doesn't count it any longer.
fn add_lone(
    net: &mut TimeNet,
    columns: &Columns,
    network: &Network,
    early: &Early,
) -> Result<(), AllocError> {
    if let Some(stay) = network.stays.get(early.stay as usize)
        && let Some(row) = columns.row_of(stay)
        && let Some(lone) = LoneStay::of(early.stay, stay, columns)
    {
        net.take_waits(row, stay.arrival, stay.last);
        let sent = early.sent;
        net.add_lone(LoneStay { sent, ..lone }, NEVER)?;
    }
    Ok(())
}

// The stays that wait, and those that end in the round that is sent.
#[derive(Drop)]
struct Ends {
    arrivals: Arrivals,
    queues: Queues,
    ending: Vec<u32>,
    // By column.
    rows: Vec<RowEnds>,
    short: Vec<Short>,
    early: Vec<Early>,
}

impl Ends {
    fn of(alloc: Global, columns: &Columns, network: &Network) -> Result<Ends, AllocError> {
        let none = RowEnds {
            first: 0,
            count: 0,
            forced: 0,
        };
        Ok(Ends {
            arrivals: Arrivals::of(alloc, network)?,
            queues: Queues::new(alloc, columns)?,
            ending: Vec::new(alloc),
            rows: vec![in alloc; none; columns.len() as usize]?,
            short: Vec::new(alloc),
            early: Vec::new(alloc),
        })
    }

    // Adds the nodes of those that stand alone.
    fn add_all(
        &self,
        net: &mut TimeNet,
        columns: &Columns,
        network: &Network,
    ) -> Result<(), AllocError> {
        for early in &self.early {
            add_lone(net, columns, network, early)?;
        }
        Ok(())
    }

    // Takes the stays that come in a round, and lists those that end in it.
    fn receive(
        &mut self,
        net: &TimeNet,
        columns: &Columns,
        network: &Network,
        round: u32,
    ) -> Result<(), AllocError> {
        self.queues
            .receive(columns, network, &net.lone, &self.arrivals, round)?;
        self.ending.clear();
        for row in 0..columns.len() {
            let first = count(&self.ending);
            self.take_ending(row, round)?;
            let ends = RowEnds {
                first,
                count: count(&self.ending).saturating_sub(first),
                forced: 0,
            };
            self.put(row, ends);
        }
        Ok(())
    }

    fn take_ending(&mut self, row: u32, round: u32) -> Result<(), AllocError> {
        for _ in 0..self.queues.len(row) {
            let Some(waiting) = self.queues.pop_ended(row, round) else {
                break;
            };
            self.ending.push(waiting.stay)?;
        }
        Ok(())
    }

    // Sends stays that end in this round before all others, as long as there is room and rows don't send enough of them.
    fn make_room(
        &mut self,
        net: &mut TimeNet,
        columns: &Columns,
        order: &mut Order,
        round: u32,
    ) -> Result<(), AllocError> {
        if self.ending.is_empty() {
            return Ok(());
        }
        for _ in 0..ATTEMPTS {
            self.list_short(net, columns, round)?;
            if self.short.is_empty() {
                break;
            }
            order.take_back(net, columns, round);
            let forced = self.force(net, columns, order, round);
            order.send(net, columns, round);
            if !forced {
                break;
            }
        }
        Ok(())
    }

    // Lists the stays for which rows don't send enough.
    fn list_short(
        &mut self,
        net: &TimeNet,
        columns: &Columns,
        round: u32,
    ) -> Result<(), AllocError> {
        self.short.clear();
        for row in 0..columns.len() {
            let ends = self.row(row);
            let sent = ends
                .forced
                .saturating_add(net.node(net.at(round, row)).flow);
            self.add_short(columns, row, ends.count.saturating_sub(sent))?;
        }
        self.short.sort_unstable();
        Ok(())
    }

    fn add_short(&mut self, columns: &Columns, row: u32, count: u32) -> Result<(), AllocError> {
        for _ in 0..count {
            self.short.push(Short {
                weight: Reverse(columns.column(row).weight),
                row,
            })?;
        }
        Ok(())
    }

    // Sends one of a row for each that is short, as far as there is room. Says whether any was sent.
    fn force(
        &mut self,
        net: &mut TimeNet,
        columns: &Columns,
        order: &mut Order,
        round: u32,
    ) -> bool {
        let mut forced = false;
        let rows = &mut self.rows;
        for short in &self.short {
            if force_one(net, columns, order, round, short.row) {
                forced = true;
                add_forced(rows, short.row);
            }
        }
        forced
    }

    // Takes those that are sent in this round out of the queues. Of those that end in it the rows send the first, and the others
    // stand alone.
    fn settle(
        &mut self,
        net: &mut TimeNet,
        columns: &Columns,
        order: &mut Order,
        round: u32,
    ) -> Result<(), AllocError> {
        for row in 0..columns.len() {
            if columns.column(row).is_row() {
                let flow = net.node(net.at(round, row)).flow;
                let ends = self.row(row);
                let by_row = flow.min(ends.count.saturating_sub(ends.forced));
                self.pop_some(row, flow.saturating_sub(by_row));
                self.add_early(&ends, by_row, round)?;
                let unsent = ends
                    .count
                    .saturating_sub(by_row)
                    .saturating_sub(ends.forced);
                drop_some(net, columns, order, round, row, unsent);
            }
        }
        Ok(())
    }

    fn pop_some(&mut self, row: u32, count: u32) {
        for _ in 0..count {
            self.queues.pop(row);
        }
    }

    // Those that end in this round, but for as many as the row sends, stand alone: first those that are sent before all others, and
    // then those that aren't sent.
    fn add_early(&mut self, ends: &RowEnds, by_row: u32, round: u32) -> Result<(), AllocError> {
        for number in by_row..ends.count {
            let is_sent = number < by_row.saturating_add(ends.forced);
            let place = ends.first.saturating_add(number);
            if let Some(stay) = self.ending.get(place as usize) {
                self.early.push(Early {
                    stay: *stay,
                    sent: if is_sent { Some(round) } else { None },
                })?;
            }
        }
        Ok(())
    }

    fn row(&self, row: u32) -> RowEnds {
        match self.rows.get(row as usize) {
            Some(ends) => *ends,
            None => RowEnds {
                first: 0,
                count: 0,
                forced: 0,
            },
        }
    }

    fn put(&mut self, row: u32, ends: RowEnds) {
        if let Some(old) = self.rows.get_mut(row as usize) {
            *old = ends;
        }
    }
}

// Sends a stay of a row from its unit on, if there is room.
fn force_one(
    net: &mut TimeNet,
    columns: &Columns,
    order: &mut Order,
    round: u32,
    row: u32,
) -> bool {
    let Some(unit) = columns.column(row).above else {
        return false;
    };
    if net.room(columns, round, row) == 0 {
        return false;
    }
    order.take_one(net, columns, round, row);
    net.add_flow(columns, round, unit, 1);
    true
}

fn add_forced(rows: &mut [RowEnds], row: u32) {
    if let Some(ends) = rows.get_mut(row as usize) {
        ends.forced = ends.forced.saturating_add(1);
    }
}

// Takes stays that aren't sent out of those that wait in a row.
fn drop_some(
    net: &mut TimeNet,
    columns: &Columns,
    order: &mut Order,
    round: u32,
    row: u32,
    count: u32,
) {
    for _ in 0..count {
        order.take_one(net, columns, round, row);
    }
}

// How many numbers are in a list, as a number of one of them.
fn count(list: &[u32]) -> u32 {
    u32::try_from(list.len()).unwrap_or(u32::MAX)
}
