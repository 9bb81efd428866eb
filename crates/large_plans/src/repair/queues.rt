//! The stays of each row that have come and aren't sent yet: those that end first are sent first.

use crate::columns::Columns;
use crate::network::Network;
use crate::repair::lone_stays::LoneStays;
use std::alloc::{AllocError, Global};
use std::cmp::Reverse;
use std::collections::BinaryHeap;

/// A stay that waits. The one that ends first comes first, and of these the one with the least number.
#[derive(Clone, Copy, PartialEq, Eq, PartialOrd, Ord)]
pub struct Waiting {
    /// The last round in which it may be sent.
    pub last: u32,
    /// Its number.
    pub stay: u32,
}

/// The stays that come in each round, as lists.
#[derive(Drop)]
pub struct Arrivals {
    // The first of each round's list.
    first: Vec<Option<u32>>,
    // The one after each stay in its list.
    next: Vec<Option<u32>>,
}

impl Arrivals {
    /// Those of a network.
    pub fn of(alloc: Global, network: &Network) -> Result<Arrivals, AllocError> {
        let mut arrivals = Arrivals {
            first: vec![in alloc; None; network.rounds as usize]?,
            next: vec![in alloc; None; network.stays.len()]?,
        };
        let stays = u32::try_from(network.stays.len()).unwrap_or(u32::MAX);
        for stay in (0..stays).rev() {
            arrivals.add(network, stay);
        }
        Ok(arrivals)
    }

    // Puts a stay before those of its round.
    fn add(&mut self, network: &Network, stay: u32) {
        if let Some(at) = network.stays.get(stay as usize)
            && let Some(first) = self.first.get_mut(at.arrival as usize)
            && let Some(next) = self.next.get_mut(stay as usize)
        {
            *next = *first;
            *first = Some(stay);
        }
    }

    fn first(&self, round: u32) -> Option<u32> {
        self.first.get(round as usize).copied()?
    }

    fn next(&self, stay: u32) -> Option<u32> {
        self.next.get(stay as usize).copied()?
    }
}

/// The queue of each row, by column.
#[derive(Drop)]
pub struct Queues {
    queues: Vec<BinaryHeap<Reverse<Waiting>>>,
}

impl Queues {
    /// Empty ones.
    pub fn new(alloc: Global, columns: &Columns) -> Result<Queues, AllocError> {
        let mut queues = Vec::with_capacity(alloc, columns.len() as usize)?;
        for _ in 0..columns.len() {
            queues.push(BinaryHeap::new(alloc))?;
        }
        Ok(Queues { queues })
    }

    /// Takes the stays that come in a round and don't stand alone.
    pub fn receive(
        &mut self,
        columns: &Columns,
        network: &Network,
        lone: &LoneStays,
        arrivals: &Arrivals,
        round: u32,
    ) -> Result<(), AllocError> {
        let mut coming = arrivals.first(round);
        for _ in 0..network.stays.len() {
            let Some(stay) = coming else {
                break;
            };
            if !lone.has(stay) {
                self.add(columns, network, stay)?;
            }
            coming = arrivals.next(stay);
        }
        Ok(())
    }

    fn add(&mut self, columns: &Columns, network: &Network, stay: u32) -> Result<(), AllocError> {
        if let Some(at) = network.stays.get(stay as usize)
            && let Some(row) = columns.row_of(at)
            && let Some(queue) = self.queues.get_mut(row as usize)
        {
            let last = at.last;
            queue.push(Reverse(Waiting { last, stay }))?;
        }
        Ok(())
    }

    /// How many wait in a row.
    pub fn len(&self, row: u32) -> usize {
        match self.queues.get(row as usize) {
            Some(queue) => queue.len(),
            None => 0,
        }
    }

    /// Takes the first of a row out, if some wait.
    pub fn pop(&mut self, row: u32) -> Option<Waiting> {
        let Reverse(waiting) = self.queues.get_mut(row as usize)?.pop()?;
        Some(waiting)
    }

    /// Takes the first of a row out, if it ends in this round or before.
    pub fn pop_ended(&mut self, row: u32, round: u32) -> Option<Waiting> {
        let Reverse(first) = self.queues.get(row as usize)?.peek()?;
        if first.last <= round {
            self.pop(row)
        } else {
            None
        }
    }
}
