//! A round for each stay, from how many of each row are sent in each round: those that end first are sent first. Those that would miss
//! their end so stand alone, and the plan is mended for them.

use crate::columns::Columns;
use crate::network::Network;
use crate::repair::live_stays::least_potential;
use crate::repair::lone_stays::LoneStay;
use crate::repair::mending::Mending;
use crate::repair::queues::{Arrivals, Queues};
use crate::repair::time_net::TimeNet;
use std::alloc::{AllocError, Global};

/// How often some more stays may come to stand alone before there is no plan. Mostly a few times are enough.
const TURNS: u32 = 100;

/// Gives each stay a round. Says whether it could.
pub fn give_rounds(
    alloc: Global,
    net: &mut TimeNet,
    columns: &Columns,
    network: &Network,
    mending: &mut Mending,
    rounds: &mut [u32],
) -> Result<bool, AllocError> {
    let mut giving = Giving {
        arrivals: Arrivals::of(alloc, network)?,
        queues: Queues::new(alloc, columns)?,
        late: Vec::new(alloc),
    };
    for _ in 0..TURNS {
        giving.give(net, columns, network, rounds)?;
        if giving.late.is_empty() {
            return Ok(give_lone(net, rounds));
        }
        giving.add_lone(net, columns, network)?;
        if !mending.finish(net, columns)? {
            return Ok(false);
        }
    }
    Ok(false)
}

// Gives each stay that stands alone its round. Says whether each has one.
fn give_lone(net: &TimeNet, rounds: &mut [u32]) -> bool {
    for lone in net.lone.all() {
        let Some(sent) = lone.sent else {
            return false;
        };
        give(rounds, lone.stay, sent);
    }
    true
}

fn give(rounds: &mut [u32], stay: u32, round: u32) {
    if let Some(sent) = rounds.get_mut(stay as usize) {
        *sent = round;
    }
}

// The stays that wait, and those whose end has passed.
#[derive(Drop)]
struct Giving {
    arrivals: Arrivals,
    queues: Queues,
    late: Vec<u32>,
}

impl Giving {
    // Gives the stays of rows their rounds, and lists those that would miss their end.
    fn give(
        &mut self,
        net: &mut TimeNet,
        columns: &Columns,
        network: &Network,
        rounds: &mut [u32],
    ) -> Result<(), AllocError> {
        self.late.clear();
        for round in 0..network.rounds {
            self.queues
                .receive(columns, network, &net.lone, &self.arrivals, round)?;
            self.give_round(net, columns, round, rounds)?;
        }
        Ok(())
    }

    fn give_round(
        &mut self,
        net: &mut TimeNet,
        columns: &Columns,
        round: u32,
        rounds: &mut [u32],
    ) -> Result<(), AllocError> {
        for row in 0..columns.len() {
            let column = columns.column(row);
            if let Some(unit) = column.above
                && column.is_row()
            {
                let unused = self.send(net, row, round, rounds);
                net.take_unused(round, row, unit, unused);
                self.take_late(row, round)?;
                let waiting = u32::try_from(self.queues.len(row)).unwrap_or(u32::MAX);
                net.set_wait(net.at(round, row), waiting);
            }
        }
        Ok(())
    }

    // Sends from a row as many as its flow says, and answers how many more it says than wait.
    fn send(&mut self, net: &TimeNet, row: u32, round: u32, rounds: &mut [u32]) -> u32 {
        let flow = net.node(net.at(round, row)).flow;
        for sent in 0..flow {
            let Some(waiting) = self.queues.pop(row) else {
                return flow.saturating_sub(sent);
            };
            give(rounds, waiting.stay, round);
        }
        0
    }

    // Takes those out of a row's queue that end in this round and aren't sent.
    fn take_late(&mut self, row: u32, round: u32) -> Result<(), AllocError> {
        for _ in 0..self.queues.len(row) {
            let Some(waiting) = self.queues.pop_ended(row, round) else {
                break;
            };
            self.late.push(waiting.stay)?;
        }
        Ok(())
    }

    // Adds nodes of those that would miss their end. Their rows don't count them any longer.
    fn add_lone(
        &self,
        net: &mut TimeNet,
        columns: &Columns,
        network: &Network,
    ) -> Result<(), AllocError> {
        for number in &self.late {
            if let Some(stay) = network.stays.get(*number as usize)
                && let Some(row) = columns.row_of(stay)
                && let Some(lone) = LoneStay::of(*number, stay, columns)
            {
                net.take_waits(row, stay.arrival, stay.last);
                net.add_lone(lone, least_potential(net, columns, &lone))?;
            }
        }
        Ok(())
    }
}
