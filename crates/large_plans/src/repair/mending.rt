//! Mending of a plan, from the last round to the first: each round gets its potentials, and what isn't best at these is moved at once,
//! to this round and those after it.

use crate::columns::Columns;
use crate::progress::Progress;
use crate::repair::budget::Budget;
use crate::repair::direction::Direction;
use crate::repair::live_stays::LiveStays;
use crate::repair::pricing::{clear_needs, price_round};
use crate::repair::search::{Found, Search};
use crate::repair::settling::settle_round;
use crate::repair::time_net::TimeNet;
use std::alloc::{AllocError, Global};

/// After how many rounds the progress is told.
const TOLD: u32 = 256;

/// Nodes with an imbalance, and the search that moves it.
#[derive(Drop)]
pub struct Mending {
    search: Search,
    unbalanced: Vec<u32>,
    // By column, for the pricing of a round.
    needs: Vec<i32>,
}

impl Mending {
    /// Nothing to mend yet, where all searches together have this budget.
    pub fn new(alloc: Global, columns: &Columns, budget: Budget) -> Result<Mending, AllocError> {
        Ok(Mending {
            search: Search::new(alloc, budget),
            unbalanced: Vec::new(alloc),
            needs: vec![in alloc; 0; columns.len() as usize]?,
        })
    }

    /// Mends a plan round by round. Says whether no node has an imbalance then.
    pub fn mend<P: Progress>(
        &mut self,
        alloc: Global,
        net: &mut TimeNet,
        columns: &Columns,
        progress: &P,
    ) -> Result<bool, AllocError> {
        let mut live = LiveStays::new(alloc, net);
        for round in (0..net.rounds).rev() {
            if !self.mend_round(net, columns, &mut live, round)? {
                return Ok(false);
            }
            if round % TOLD == 0 {
                let priced = net.rounds.saturating_sub(round);
                progress.rounds_priced(priced, net.rounds);
            }
        }
        self.finish(net, columns)
    }

    // Says whether the budget sufficed.
    fn mend_round(
        &mut self,
        net: &mut TimeNet,
        columns: &Columns,
        live: &mut LiveStays,
        round: u32,
    ) -> Result<bool, AllocError> {
        net.first = round;
        clear_needs(&mut self.needs);
        live.raise_needs(net, columns, round, &mut self.needs);
        price_round(net, columns, round, &mut self.needs);
        let changed = settle_round(net, columns, round);
        live.settle(net, columns, round, &mut self.unbalanced)?;
        if changed {
            self.list_round(net, round)?;
        }
        let moved = self.move_listed(net, columns, Direction::Pull)?
            && self.move_listed(net, columns, Direction::Push)?;
        self.keep_round(net, round);
        Ok(moved)
    }

    // Lists the nodes of a round that have an imbalance.
    fn list_round(&mut self, net: &TimeNet, round: u32) -> Result<(), AllocError> {
        let first = net.at(round, 0);
        self.list(net, first, first.saturating_add(net.width))
    }

    fn list(&mut self, net: &TimeNet, first: u32, end: u32) -> Result<(), AllocError> {
        for number in first..end {
            if net.node(number).imbalance != 0 {
                self.unbalanced.push(number)?;
            }
        }
        Ok(())
    }

    // Moves the imbalance of the nodes that are listed, where it has the sign of this direction. Says whether the budget sufficed.
    fn move_listed(
        &mut self,
        net: &mut TimeNet,
        columns: &Columns,
        direction: Direction,
    ) -> Result<bool, AllocError> {
        for number in &self.unbalanced {
            let found = self.search.move_all(net, columns, *number, direction)?;
            if matches!(&found, Found::OutOfBudget) {
                return Ok(false);
            }
        }
        Ok(true)
    }

    // Keeps those nodes of this round on the list that still have an imbalance: there may be a path for it in the round before.
    // Others are tried once more at the end.
    fn keep_round(&mut self, net: &TimeNet, round: u32) {
        let end = net.at(round, net.width);
        self.unbalanced
            .retain(|number| *number < end && net.node(*number).imbalance != 0);
    }

    /// Moves what imbalance there is, where all rounds have their potentials. Says whether none is left.
    pub fn finish(&mut self, net: &mut TimeNet, columns: &Columns) -> Result<bool, AllocError> {
        self.unbalanced.clear();
        self.list(net, 0, net.len())?;
        Ok(
            self.move_listed(net, columns, Direction::Push)?
                && self.move_listed(net, columns, Direction::Pull)?
                && self.is_balanced(net),
        )
    }

    fn is_balanced(&self, net: &TimeNet) -> bool {
        self.unbalanced
            .iter()
            .all(|number| net.node(*number).imbalance == 0)
    }
}
