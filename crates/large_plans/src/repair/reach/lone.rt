//! How a search goes from units to stays that stand alone, and from those to units.

use crate::columns::{Column, Columns};
use crate::repair::direction::Direction;
use crate::repair::lone_stays::LoneStay;
use crate::repair::reach::{Reach, Stand};
use crate::repair::time_net::{Spot, TimeNet, as_potential};
use std::alloc::AllocError;

// How many rounds or stays a search scans in the time in which it takes a node.
const SCANS: u64 = 8;

impl Reach {
    // Looks from a unit to stays that stand alone: for a push to those that it sends, and for a pull to those that it might send.
    pub(super) fn look_to_lone(
        &mut self,
        net: &mut TimeNet,
        column: &Column,
        spot: &Spot,
        stand: &Stand,
    ) -> Result<u64, AllocError> {
        match self.direction {
            Direction::Push => self.look_to_sent(net, column, spot, stand),
            Direction::Pull if net.cap(spot.round, column) > 0 => {
                self.look_to_covering(net, column, spot, stand)
            }
            Direction::Pull => Ok(0),
        }
    }

    fn look_to_sent(
        &mut self,
        net: &mut TimeNet,
        column: &Column,
        spot: &Spot,
        stand: &Stand,
    ) -> Result<u64, AllocError> {
        let mut here = net.lone.first_sent(column.unit, spot.round);
        for _ in 0..net.lone.len() {
            let Some(number) = here else {
                break;
            };
            let Some(lone) = net.lone.get(number) else {
                break;
            };
            let cost = as_potential(lone.cost(spot.round)).saturating_neg();
            self.reach(net, stand, net.at_lone(number), cost)?;
            here = lone.next;
        }
        Ok(0)
    }

    // Looks to those whose windows have this round: from the leaf of the round up to the root.
    fn look_to_covering(
        &mut self,
        net: &mut TimeNet,
        column: &Column,
        spot: &Spot,
        stand: &Stand,
    ) -> Result<u64, AllocError> {
        let mut node = net.lone.windows().leaf(spot.round);
        let mut scanned = 0u64;
        for _ in 0..u32::BITS {
            if node == 0 {
                break;
            }
            let first = net.lone.windows().first(column.unit, node);
            scanned = scanned.saturating_add(self.look_to_listed(net, first, spot, stand)?);
            node /= 2;
        }
        Ok(scanned / SCANS)
    }

    // Looks to those of a list of windows, and answers how many there are.
    fn look_to_listed(
        &mut self,
        net: &mut TimeNet,
        first: Option<u32>,
        spot: &Spot,
        stand: &Stand,
    ) -> Result<u64, AllocError> {
        let mut here = first;
        let mut scanned = 0u64;
        for _ in 0..net.lone.windows().len() {
            let Some(entry) = here else {
                break;
            };
            let Some((number, next)) = net.lone.windows().entry(entry) else {
                break;
            };
            self.look_to_one(net, number, spot, stand)?;
            scanned = scanned.saturating_add(1);
            here = next;
        }
        Ok(scanned)
    }

    // Looks to a stay that might be sent in this round and isn't.
    fn look_to_one(
        &mut self,
        net: &mut TimeNet,
        number: u32,
        spot: &Spot,
        stand: &Stand,
    ) -> Result<(), AllocError> {
        if let Some(lone) = net.lone.get(number)
            && lone.sent != Some(spot.round)
        {
            let cost = as_potential(lone.cost(spot.round));
            self.reach(net, stand, net.at_lone(number), cost.saturating_neg())?;
        }
        Ok(())
    }

    // Looks from a stay that stands alone: for a push to the rounds in which it might be sent, and for a pull to the one in which
    // it is sent.
    pub(super) fn look_from_lone(
        &mut self,
        net: &mut TimeNet,
        columns: &Columns,
        number: u32,
        stand: &Stand,
    ) -> Result<u64, AllocError> {
        let Some(lone) = net.lone.get(number) else {
            return Ok(0);
        };
        let column = columns.column(lone.column);
        if let Direction::Push = self.direction {
            let first = lone.arrival.max(net.first);
            let end = lone.last.saturating_add(1);
            return self.scan(net, &column, first, end, &lone, stand);
        }
        if let Some(round) = lone.sent {
            let cell = net.at(round, lone.column);
            self.reach(net, stand, cell, as_potential(lone.cost(round)))?;
        }
        Ok(0)
    }

    // Looks to the unit of a stay in all rounds of its window from one on and before another.
    fn scan(
        &mut self,
        net: &mut TimeNet,
        column: &Column,
        first: u32,
        end: u32,
        lone: &LoneStay,
        stand: &Stand,
    ) -> Result<u64, AllocError> {
        for round in first..end {
            if lone.sent != Some(round) && net.cap(round, column) > 0 {
                let cell = net.at(round, lone.column);
                self.reach(net, stand, cell, as_potential(lone.cost(round)))?;
            }
        }
        Ok(u64::from(end.saturating_sub(first)) / SCANS)
    }
}
