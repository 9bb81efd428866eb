//! The nodes that a search reaches: from each node that it takes, it looks on along the arcs of the residual network, or for a pull
//! against them.

use crate::columns::{Column, Columns};
use crate::repair::direction::Direction;
use crate::repair::frontier::Frontier;
use crate::repair::path::Goal;
use crate::repair::time_net::{Spot, TimeNet, UNREACHED, as_potential};
use std::alloc::{AllocError, Global};

mod lone;

// A node from which a search looks on.
#[derive(Clone, Copy)]
struct Stand {
    number: u32,
    distance: u32,
    potential: i32,
    flow: u32,
    wait: u32,
}

/// What a search has reached, whose memory serves one after another.
#[derive(Drop)]
pub struct Reach {
    frontier: Frontier,
    goal: Goal,
    direction: Direction,
}

impl Reach {
    /// No node.
    pub fn new(alloc: Global) -> Reach {
        Reach {
            frontier: Frontier::new(alloc),
            goal: Goal::Unknown,
            direction: Direction::Push,
        }
    }

    /// Begins again with one node.
    pub fn begin(
        &mut self,
        net: &mut TimeNet,
        start: u32,
        direction: Direction,
    ) -> Result<(), AllocError> {
        self.goal = Goal::Unknown;
        self.direction = direction;
        self.frontier.begin(net, start)
    }

    /// The end of the best path so far.
    pub fn goal(&self) -> &Goal {
        &self.goal
    }

    /// How many nodes were reached.
    pub fn len(&self) -> usize {
        self.frontier.reached().len()
    }

    /// Takes out a nearest node from which to look on, if it is nearer than the goal.
    #[inline]
    pub fn take(&mut self) -> Option<u32> {
        self.frontier.take()
    }

    /// Takes back that nodes were reached.
    pub fn forget(&self, net: &mut TimeNet) {
        self.frontier.forget(net);
    }

    /// Changes potentials so that the reduced cost of each arc of the best path is 0.
    pub fn change_potentials(&self, net: &mut TimeNet) {
        self.frontier.change(net, self.direction);
    }

    /// Looks on from a node that was taken, unless it was meanwhile reached by a shorter path. Answers the time that scans took,
    /// counted in nodes.
    pub fn look_from(
        &mut self,
        net: &mut TimeNet,
        columns: &Columns,
        number: u32,
    ) -> Result<u64, AllocError> {
        let node = net.node(number);
        if node.distance != self.frontier.distance {
            return Ok(0);
        }
        let stand = Stand {
            number,
            distance: node.distance,
            potential: node.potential,
            flow: node.flow,
            wait: node.wait,
        };
        match net.lone_of(number) {
            Some(lone) => self.look_from_lone(net, columns, lone, &stand),
            None => self.look_from_cell(net, columns, &stand),
        }
    }

    // Looks on from a row or a unit.
    fn look_from_cell(
        &mut self,
        net: &mut TimeNet,
        columns: &Columns,
        stand: &Stand,
    ) -> Result<u64, AllocError> {
        let spot = net.spot(stand.number);
        let column = columns.column(spot.column);
        if column.is_row() {
            self.look_from_row(net, &column, &spot, stand)?;
            return Ok(0);
        }
        self.look_from_unit(net, columns, &column, &spot, stand)?;
        if net.lone.len() > 0 {
            return self.look_to_lone(net, &column, &spot, stand);
        }
        Ok(0)
    }

    // Looks on from a row. What is reached last is looked from first.
    fn look_from_row(
        &mut self,
        net: &mut TimeNet,
        column: &Column,
        spot: &Spot,
        stand: &Stand,
    ) -> Result<(), AllocError> {
        match self.direction {
            Direction::Push => {
                self.look_back(net, column, spot, stand)?;
                self.look_ahead(net, column, stand)?;
                self.look_up(net, column, spot, stand)
            }
            Direction::Pull => {
                self.look_up(net, column, spot, stand)?;
                self.look_ahead(net, column, stand)?;
                self.look_back(net, column, spot, stand)
            }
        }
    }

    // Looks from a row to its unit.
    #[inline]
    fn look_up(
        &mut self,
        net: &mut TimeNet,
        column: &Column,
        spot: &Spot,
        stand: &Stand,
    ) -> Result<(), AllocError> {
        let cap = net.cap(spot.round, column);
        if let Some(above) = column.above
            && self.direction.leads_up(stand.flow, cap)
        {
            self.reach(net, stand, spot.beside(above), 0)?;
        }
        Ok(())
    }

    // Looks from a row to the next round.
    #[inline]
    fn look_ahead(
        &mut self,
        net: &mut TimeNet,
        column: &Column,
        stand: &Stand,
    ) -> Result<(), AllocError> {
        if let Some(next) = net.next(stand.number)
            && self.direction.leads_on(stand.wait)
        {
            self.reach(net, stand, next, as_potential(column.weight))?;
        }
        Ok(())
    }

    // Looks from a row to the round before.
    #[inline]
    fn look_back(
        &mut self,
        net: &mut TimeNet,
        column: &Column,
        spot: &Spot,
        stand: &Stand,
    ) -> Result<(), AllocError> {
        if let Some(previous) = net.previous(spot)
            && self.direction.leads_back(net.node(previous).wait)
        {
            let cost = as_potential(column.weight).saturating_neg();
            self.reach(net, stand, previous, cost)?;
        }
        Ok(())
    }

    // Looks from a unit to the one above or the root, and to all right below it.
    fn look_from_unit(
        &mut self,
        net: &mut TimeNet,
        columns: &Columns,
        column: &Column,
        spot: &Spot,
        stand: &Stand,
    ) -> Result<(), AllocError> {
        let cap = net.cap(spot.round, column);
        if self.direction.leads_out(stand.flow, cap) {
            match column.above {
                Some(above) => self.reach(net, stand, spot.beside(above), 0)?,
                None => self.reach_root(stand),
            }
        }
        for below in columns.below(column) {
            if self.leads_below(net, columns, spot, *below, cap) {
                self.reach(net, stand, spot.beside(*below), 0)?;
            }
        }
        Ok(())
    }

    // Whether a unit with this cap leads to a column right below it.
    #[inline]
    fn leads_below(
        &self,
        net: &TimeNet,
        columns: &Columns,
        spot: &Spot,
        below: u32,
        cap: u32,
    ) -> bool {
        let flow = net.node(spot.beside(below)).flow;
        match self.direction {
            Direction::Push => flow > 0,
            Direction::Pull => {
                let column = columns.column(below);
                if column.is_row() {
                    cap > 0
                } else {
                    flow < net.cap(spot.round, &column)
                }
            }
        }
    }

    // Reaches the root by a path.
    #[inline]
    fn reach_root(&mut self, stand: &Stand) {
        let distance = self.distance_to(stand, 0, 0);
        if distance < self.frontier.best {
            self.frontier.best = distance;
            self.goal = Goal::Root(stand.number);
        }
    }

    // Reaches a node along an arc, or for a pull against it, with this cost, if the path is the shortest so far.
    #[inline]
    fn reach(
        &mut self,
        net: &mut TimeNet,
        stand: &Stand,
        number: u32,
        cost: i32,
    ) -> Result<(), AllocError> {
        let Some(node) = net.node_mut(number) else {
            return Ok(());
        };
        let distance = self.distance_to(stand, node.potential, cost);
        if distance >= node.distance || distance >= self.frontier.best {
            return Ok(());
        }
        let is_new = node.distance == UNREACHED;
        let is_goal = self.direction.meets(node);
        node.distance = distance;
        node.from = stand.number;
        if is_new {
            self.frontier.list(number)?;
        }
        if is_goal {
            self.frontier.best = distance;
            self.goal = Goal::Node(number);
            return Ok(());
        }
        self.frontier.add(number, distance)
    }

    // How far a node with this potential is, if an arc of this cost leads there. Paths that are too long count as none.
    #[inline]
    fn distance_to(&self, stand: &Stand, potential: i32, cost: i32) -> u32 {
        let more = i64::from(potential) + i64::from(cost) - i64::from(stand.potential);
        let length = match self.direction {
            Direction::Push => i64::from(stand.distance).saturating_add(more),
            Direction::Pull => i64::from(stand.distance).saturating_sub(more),
        };
        u32::try_from(length.max(0)).unwrap_or(UNREACHED)
    }
}
