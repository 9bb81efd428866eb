//! Dijkstra's algorithm on reduced costs (Edmonds and Karp 1972; Tomizawa 1971): the cheapest path from or to a node of a level,
//! and the requests that are moved along it.

use crate::columns::{Column, Columns};
use crate::levels::arc::Arc;
use crate::levels::frontier::{Frontier, Spot};
use crate::levels::level::{Level, Node, UNREACHED, as_imbalance};
use crate::levels::search_direction::SearchDirection;
use std::alloc::{AllocError, Global};

/// A node counts as a queue if at least so many wait there, in its block and in the block before.
const QUEUE: u32 = 16;

/// Where a search ends.
#[derive(Clone, Copy)]
pub enum Ends {
    /// At the root, or at a node that lacks what the start has, or has what it lacks.
    AtNeed,
    /// There, or at a queue.
    AtQueue,
}

/// What came of a search.
#[derive(Clone, Copy)]
pub enum Found {
    /// Requests were moved along a path.
    Moved,
    /// There is no path.
    NoPath,
    /// The search was cut short. Nothing has changed.
    CutShort,
}

// The end of the best path so far.
#[derive(Clone, Copy)]
enum Goal {
    Unknown,
    // The root, reached from this node.
    Root(u32),
    Node(u32),
}

// A node from which a search looks on.
#[derive(Clone, Copy)]
struct Stand {
    spot: Spot,
    // The first node of its block.
    first: u32,
    node: Node,
    // How far a node with potential 0 would be, if this one led to it at no cost.
    key: i64,
}

impl Stand {
    // The node of another column in the same block.
    #[inline]
    fn beside(&self, column: u32) -> Spot {
        let number = self.first.saturating_add(column);
        Spot { number, column }
    }

    // This node of the same column in another block.
    #[inline]
    fn across(&self, number: u32) -> Spot {
        let column = self.spot.column;
        Spot { number, column }
    }
}

/// Whether a node is a queue.
#[inline]
pub fn is_queue(level: &Level, number: u32) -> bool {
    level.node(number).wait >= QUEUE
        && match level.previous(number) {
            Some(previous) => level.node(previous).wait >= QUEUE,
            None => false,
        }
}

/// A search, whose memory serves one after another.
#[derive(Drop)]
pub struct Search {
    frontier: Frontier,
    arcs: Vec<Arc>,
    goal: Goal,
    start: u32,
    direction: SearchDirection,
    ends: Ends,
}

impl Search {
    /// A search that has reached no node.
    pub fn new(alloc: Global) -> Search {
        Search {
            frontier: Frontier::new(alloc),
            arcs: Vec::new(alloc),
            goal: Goal::Unknown,
            start: 0,
            direction: SearchDirection::Push,
            ends: Ends::AtNeed,
        }
    }

    // Searches a cheapest path from a node, or to it, that leaves at most so many nodes. If there is one, changes the potentials
    // so that the reduced cost of each of its arcs is 0, and moves as many requests along it as fit.
    fn run(
        &mut self,
        level: &mut Level,
        columns: &Columns,
        start: u32,
        direction: SearchDirection,
        ends: Ends,
        budget: u64,
    ) -> Result<Found, AllocError> {
        self.goal = Goal::Unknown;
        self.start = start;
        self.direction = direction;
        self.ends = ends;
        self.frontier.begin(level, start)?;
        if self.look_on(level, columns, budget)? {
            return self.change(level, columns);
        }
        self.frontier.forget(level);
        Ok(Found::CutShort)
    }

    /// Searches paths from the node, and moves requests along them, until its imbalance is 0 or a search fails. Answers what the
    /// last search found, or `Moved`.
    pub fn move_all(
        &mut self,
        level: &mut Level,
        columns: &Columns,
        number: u32,
        direction: SearchDirection,
        ends: Ends,
        budget: u64,
    ) -> Result<Found, AllocError> {
        let most = level.node(number).imbalance.unsigned_abs();
        for _ in 0..most {
            if !direction.starts(&level.node(number)) {
                break;
            }
            let found = self.run(level, columns, number, direction, ends, budget)?;
            if !matches!(&found, Found::Moved) {
                return Ok(found);
            }
        }
        Ok(Found::Moved)
    }

    // Takes one node after another from the frontier, the nearest first, until none is nearer than the goal. Answers whether the
    // budget sufficed.
    fn look_on(
        &mut self,
        level: &mut Level,
        columns: &Columns,
        budget: u64,
    ) -> Result<bool, AllocError> {
        for _ in 0..budget {
            let Some(spot) = self.frontier.nearest(level) else {
                return Ok(true);
            };
            self.look_from(level, columns, spot)?;
        }
        Ok(false)
    }

    // Looks on from a node.
    fn look_from(
        &mut self,
        level: &mut Level,
        columns: &Columns,
        spot: Spot,
    ) -> Result<(), AllocError> {
        let column = columns.column(spot.column);
        let node = level.node(spot.number);
        let distance = i64::from(self.frontier.distance);
        let stand = Stand {
            spot,
            first: spot.number.saturating_sub(spot.column),
            node,
            key: distance.saturating_sub(self.direction.signed(node.potential)),
        };
        if column.is_row() {
            self.look_from_row(level, &column, &stand)
        } else {
            self.look_from_unit(level, columns, &column, &stand)
        }
    }

    // Looks on from a row: to its unit, and to the next block and the one before.
    fn look_from_row(
        &mut self,
        level: &mut Level,
        column: &Column,
        stand: &Stand,
    ) -> Result<(), AllocError> {
        let weight = self.direction.signed(i64::from(column.weight));
        if let Some(above) = column.above
            && self
                .direction
                .leads_up(&stand.node, level.node(stand.beside(above).number).cap)
        {
            self.reach(level, stand, stand.beside(above), 0)?;
        }
        if let Some(next) = level.next(stand.spot.number)
            && self.direction.leads_on(&stand.node)
        {
            self.reach(level, stand, stand.across(next), weight)?;
        }
        if let Some(previous) = level.previous(stand.spot.number)
            && self.direction.leads_back(&level.node(previous))
        {
            self.reach(
                level,
                stand,
                stand.across(previous),
                weight.saturating_neg(),
            )?;
        }
        Ok(())
    }

    // Looks on from a unit: to the one above or the root, and to all right below it.
    fn look_from_unit(
        &mut self,
        level: &mut Level,
        columns: &Columns,
        column: &Column,
        stand: &Stand,
    ) -> Result<(), AllocError> {
        if self.direction.leads_out(&stand.node) {
            match column.above {
                Some(above) => self.reach(level, stand, stand.beside(above), 0)?,
                None => self.reach_root(stand),
            }
        }
        for below in columns.below(column) {
            let below = stand.beside(*below);
            if self
                .direction
                .leads_below(&level.node(below.number), stand.node.cap)
            {
                self.reach(level, stand, below, 0)?;
            }
        }
        Ok(())
    }

    // Reaches the root by a path.
    #[inline]
    fn reach_root(&mut self, stand: &Stand) {
        let distance = as_distance(stand.key);
        if distance < self.frontier.best {
            self.frontier.best = distance;
            self.goal = Goal::Root(stand.spot.number);
        }
    }

    // Reaches a node by a path, if that is the shortest so far.
    #[inline]
    fn reach(
        &mut self,
        level: &mut Level,
        stand: &Stand,
        spot: Spot,
        cost: i64,
    ) -> Result<(), AllocError> {
        let number = spot.number;
        let node = level.node(number);
        let length = stand.key.saturating_add(cost);
        let length = length.saturating_add(self.direction.signed(node.potential));
        let distance = as_distance(length);
        if distance >= node.distance || distance >= self.frontier.best {
            return Ok(());
        }
        self.frontier
            .mark(level, number, distance, stand.spot.number)?;
        if self.is_goal(level, number, &node) {
            self.frontier.best = distance;
            self.goal = Goal::Node(number);
            return Ok(());
        }
        self.frontier.add(spot, distance)
    }

    // Whether the search ends at a node.
    #[inline]
    fn is_goal(&self, level: &Level, number: u32, node: &Node) -> bool {
        self.direction.meets(node)
            || match self.ends {
                Ends::AtNeed => false,
                Ends::AtQueue => is_queue(level, number),
            }
    }

    // Changes potentials, flows and waits by what the search found.
    fn change(&mut self, level: &mut Level, columns: &Columns) -> Result<Found, AllocError> {
        if matches!(&self.goal, Goal::Unknown) {
            self.frontier.forget(level);
            return Ok(Found::NoPath);
        }
        self.frontier.forget_and_change(level, self.direction);
        self.trace(level, columns)?;
        let count = self.room(level);
        if count == 0 {
            return Ok(Found::NoPath);
        }
        self.send(level, count);
        Ok(Found::Moved)
    }

    // Lists the steps of the path, from its goal back to the start.
    fn trace(&mut self, level: &Level, columns: &Columns) -> Result<(), AllocError> {
        self.arcs.clear();
        let mut here = self.begin_trace()?;
        for _ in self.frontier.reached() {
            if here == self.start {
                break;
            }
            let from = level.node(here).from;
            self.arcs.push(match self.direction {
                SearchDirection::Push => Arc::between(level, columns, from, here),
                SearchDirection::Pull => Arc::between(level, columns, here, from),
            })?;
            here = from;
        }
        Ok(())
    }

    // Lists the step between the path's last node and the root, if that is its goal, and answers the node.
    fn begin_trace(&mut self) -> Result<u32, AllocError> {
        match self.goal {
            Goal::Unknown => Ok(self.start),
            Goal::Node(number) => Ok(number),
            Goal::Root(from) => {
                self.arcs.push(match self.direction {
                    SearchDirection::Push => Arc::Up(from),
                    SearchDirection::Pull => Arc::Down(from),
                })?;
                Ok(from)
            }
        }
    }

    // How many can be moved along the path.
    fn room(&self, level: &Level) -> u32 {
        let mut count = level.node(self.start).imbalance.unsigned_abs();
        if let Goal::Node(goal) = self.goal
            && self.direction.meets(&level.node(goal))
        {
            count = count.min(level.node(goal).imbalance.unsigned_abs());
        }
        for arc in &self.arcs {
            count = count.min(arc.room(level));
        }
        count
    }

    // Moves so many along the path.
    fn send(&self, level: &mut Level, count: u32) {
        for arc in &self.arcs {
            arc.send(level, count);
        }
        let more = match self.direction {
            SearchDirection::Push => as_imbalance(count),
            SearchDirection::Pull => as_imbalance(count).saturating_neg(),
        };
        level.add_imbalance(self.start, more.saturating_neg());
        if let Goal::Node(goal) = self.goal {
            level.add_imbalance(goal, more);
        }
    }
}

// The length of a path as a distance. Paths that are too long count as none.
#[inline]
fn as_distance(length: i64) -> u32 {
    u32::try_from(length.max(0)).unwrap_or(UNREACHED)
}
