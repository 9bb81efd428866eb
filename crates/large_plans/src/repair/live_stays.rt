//! Stays that stand alone while the rounds get their potentials, from the last round to the first.

use crate::columns::Columns;
use crate::repair::lone_stays::LoneStay;
use crate::repair::time_net::{NEVER, TimeNet, as_potential};
use std::alloc::{AllocError, Global};

/// The stays that stand alone whose windows have the round before and some round that has its potentials.
#[derive(Drop)]
pub struct LiveStays {
    live: Vec<u32>,
    // How many of all don't end in a round that has its potentials. They are in the order of their ends.
    left: u32,
}

impl LiveStays {
    /// None, as long as no round has its potentials.
    pub fn new(alloc: Global, net: &TimeNet) -> LiveStays {
        LiveStays {
            live: Vec::new(alloc),
            left: u32::try_from(net.lone.len()).unwrap_or(u32::MAX),
        }
    }

    /// Raises the need of each unit that isn't stopped in a round to what it costs these stays to be sent later.
    pub fn raise_needs(&self, net: &TimeNet, columns: &Columns, round: u32, needs: &mut [i32]) {
        for number in &self.live {
            let potential = net.node(net.at_lone(*number)).potential;
            if let Some(lone) = net.lone.get(*number)
                && potential < NEVER
                && net.cap(round, &columns.column(lone.column)) > 0
                && let Some(need) = needs.get_mut(lone.column as usize)
            {
                *need = (*need).max(potential.saturating_sub(as_potential(lone.cost(round))));
            }
        }
    }

    /// Takes the potentials of a round. Those for whom it is cheaper than all later ones, and who are sent, are sent no longer. Lists
    /// the nodes that have an imbalance then.
    pub fn settle(
        &mut self,
        net: &mut TimeNet,
        columns: &Columns,
        round: u32,
        unbalanced: &mut Vec<u32>,
    ) -> Result<(), AllocError> {
        for number in &self.live {
            settle_one(net, columns, *number, round, unbalanced)?;
        }
        self.begin(net, columns, round, unbalanced)?;
        self.live.retain(|number| match net.lone.get(*number) {
            Some(lone) => lone.arrival < round,
            None => false,
        });
        Ok(())
    }

    // Takes those that end in a round.
    fn begin(
        &mut self,
        net: &mut TimeNet,
        columns: &Columns,
        round: u32,
        unbalanced: &mut Vec<u32>,
    ) -> Result<(), AllocError> {
        for number in (0..self.left).rev() {
            let Some(lone) = net.lone.get(number) else {
                break;
            };
            if lone.last < round {
                break;
            }
            if let Some(potential) = potential_in(net, columns, &lone, round) {
                net.set_potential(net.at_lone(number), potential);
            }
            if lone.sent.is_none() {
                unbalanced.push(net.at_lone(number))?;
            }
            self.live.push(number)?;
            self.left = number;
        }
        Ok(())
    }
}

// Takes the potential of a round for one stay, if that is less.
fn settle_one(
    net: &mut TimeNet,
    columns: &Columns,
    number: u32,
    round: u32,
    unbalanced: &mut Vec<u32>,
) -> Result<(), AllocError> {
    let node = net.at_lone(number);
    let Some(lone) = net.lone.get(number) else {
        return Ok(());
    };
    let Some(potential) = potential_in(net, columns, &lone, round) else {
        return Ok(());
    };
    if potential >= net.node(node).potential {
        return Ok(());
    }
    net.set_potential(node, potential);
    if let Some(sent) = lone.sent {
        let cell = net.at(sent, lone.column);
        net.lone.take_back(number);
        net.add_imbalance(node, 1);
        net.add_imbalance(cell, -1);
        unbalanced.push(cell)?;
        unbalanced.push(node)?;
    }
    Ok(())
}

// What the cheapest path of a stay costs that is sent in a round, if its unit isn't stopped.
fn potential_in(net: &TimeNet, columns: &Columns, lone: &LoneStay, round: u32) -> Option<i32> {
    if net.cap(round, &columns.column(lone.column)) == 0 {
        return None;
    }
    let cell = net.node(net.at(round, lone.column)).potential;
    Some(cell.saturating_add(as_potential(lone.cost(round))))
}

/// What the cheapest path of a stay costs in all rounds of its window.
pub fn least_potential(net: &TimeNet, columns: &Columns, lone: &LoneStay) -> i32 {
    let mut least = NEVER;
    for round in lone.arrival..lone.last.saturating_add(1) {
        if let Some(potential) = potential_in(net, columns, lone, round) {
            least = least.min(potential);
        }
    }
    least
}
