//! Dijkstra's algorithm on reduced costs (Edmonds and Karp 1972; Tomizawa 1971): the cheapest path from or to a node, and the
//! requests that are moved along it.

use crate::columns::Columns;
use crate::repair::budget::Budget;
use crate::repair::direction::Direction;
use crate::repair::path::{Goal, Path};
use crate::repair::reach::Reach;
use crate::repair::time_net::TimeNet;
use std::alloc::{AllocError, Global};

/// What came of a search.
#[derive(Clone, Copy)]
pub enum Found {
    /// Requests were moved along a path.
    Moved,
    /// There is no path.
    NoPath,
    /// The budget ran out. Nothing has changed.
    OutOfBudget,
}

/// A search, whose memory serves one after another.
#[derive(Drop)]
pub struct Search {
    reach: Reach,
    path: Path,
    // What all searches together may still take.
    budget: Budget,
}

impl Search {
    /// A search that has reached no node, where all searches together have this budget.
    pub fn new(alloc: Global, budget: Budget) -> Search {
        Search {
            reach: Reach::new(alloc),
            path: Path::new(alloc),
            budget,
        }
    }

    /// Searches paths from the node, or to it, and moves requests along them, until its imbalance is 0 or a search fails. Answers
    /// what the last search found, or `Moved`.
    pub fn move_all(
        &mut self,
        net: &mut TimeNet,
        columns: &Columns,
        number: u32,
        direction: Direction,
    ) -> Result<Found, AllocError> {
        let most = net.node(number).imbalance.unsigned_abs();
        for _ in 0..most {
            if !direction.starts(&net.node(number)) {
                break;
            }
            let found = self.run(net, columns, number, direction)?;
            if !matches!(&found, Found::Moved) {
                return Ok(found);
            }
        }
        Ok(Found::Moved)
    }

    // Searches a cheapest path from a node, or to it. If there is one, changes the potentials so that the reduced cost of each of
    // its arcs is 0, and moves as many requests along it as fit.
    fn run(
        &mut self,
        net: &mut TimeNet,
        columns: &Columns,
        start: u32,
        direction: Direction,
    ) -> Result<Found, AllocError> {
        self.reach.begin(net, start, direction)?;
        let found = if !self.look_on(net, columns)? {
            Found::OutOfBudget
        } else if matches!(self.reach.goal(), Goal::Unknown) {
            Found::NoPath
        } else {
            self.reach.change_potentials(net);
            self.move_some(net, columns, start, direction)?
        };
        self.reach.forget(net);
        Ok(found)
    }

    // Looks on from one node after another, the nearest first, until none is nearer than the goal. Answers whether the budget
    // sufficed.
    fn look_on(&mut self, net: &mut TimeNet, columns: &Columns) -> Result<bool, AllocError> {
        let mut left = self.budget.nodes;
        while left > 0 {
            let Some(number) = self.reach.take() else {
                self.budget.nodes = left;
                return Ok(true);
            };
            let scanned = self.reach.look_from(net, columns, number)?;
            left = (left - 1).saturating_sub(scanned);
        }
        self.budget.nodes = 0;
        Ok(false)
    }

    // Moves as many requests along the path that was found as fit.
    fn move_some(
        &mut self,
        net: &mut TimeNet,
        columns: &Columns,
        start: u32,
        direction: Direction,
    ) -> Result<Found, AllocError> {
        let most = self.reach.len();
        let goal = *self.reach.goal();
        self.path.trace(net, columns, start, goal, direction, most)?;
        let count = self.path.room(net, columns);
        if count == 0 {
            return Ok(Found::NoPath);
        }
        self.path.send(net, count);
        self.budget.nodes = self.budget.nodes.saturating_add(self.budget.nodes_per_path);
        Ok(Found::Moved)
    }
}
