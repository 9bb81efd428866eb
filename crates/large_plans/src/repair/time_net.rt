//! The time-expanded network: a node in each round for each unit and each row, and one for each stay that stands alone.

use crate::caps::tight_caps;
use crate::columns::{Column, Columns};
use crate::network::Network;
use crate::repair::lone_stays::{LoneStay, LoneStays};
use std::alloc::{AllocError, Global};

/// The distance of a node that no search has reached.
pub const UNREACHED: u32 = u32::MAX;

/// The potential of a node from which nothing can be sent.
pub const NEVER: i32 = 1_000_000_000;

/// How many nodes all rounds may have, of 24 bytes each.
const MOST_CELLS: u32 = 1 << 26;

/// A unit or a row in a round. What comes into a unit goes on to the unit above; what comes into a row goes on to its unit, or
/// waits for the next round.
#[derive(Clone, Copy)]
pub struct Node {
    /// What the cheapest path from here costs one request more.
    pub potential: i32,
    /// How many requests go on from here in this round.
    pub flow: u32,
    /// How many wait here for the next round.
    pub wait: u32,
    /// How far a search has come to get here, less what the potentials say.
    pub distance: u32,
    /// The node from which it came.
    pub from: u32,
    /// How many requests come here beyond those that go on or wait, and below 0 how many fewer.
    pub imbalance: i32,
}

impl Node {
    /// A node from which nothing goes on.
    pub const EMPTY: Node = Node {
        potential: 0,
        flow: 0,
        wait: 0,
        distance: UNREACHED,
        from: 0,
        imbalance: 0,
    };
}

/// Where a node is.
#[derive(Clone, Copy)]
pub struct Spot {
    /// Its number.
    pub number: u32,
    /// Its round.
    pub round: u32,
    /// The number of its column.
    pub column: u32,
}

impl Spot {
    /// The number of the node of another column in the same round.
    #[inline]
    pub fn beside(&self, column: u32) -> u32 {
        self.number
            .saturating_sub(self.column)
            .saturating_add(column)
    }
}

/// The nodes of all rounds, round by round, then those of stays that stand alone; and the caps of units.
#[derive(Drop)]
pub struct TimeNet {
    /// How many rounds there are.
    pub rounds: u32,
    /// How many nodes a round has.
    pub width: u32,
    /// The first round that searches know. There is nothing before it.
    pub first: u32,
    /// The stays that stand alone.
    pub lone: LoneStays,
    // How many nodes all rounds have.
    cells: u32,
    nodes: Vec<Node>,
    units: usize,
    caps: Vec<u32>,
}

impl TimeNet {
    /// The nodes of a network, from which nothing goes on. There is none if they are too many.
    pub fn of(
        alloc: Global,
        network: &Network,
        columns: &Columns,
    ) -> Result<Option<TimeNet>, AllocError> {
        let Some(cells) = network.rounds.checked_mul(columns.len()) else {
            return Ok(None);
        };
        if cells > MOST_CELLS {
            return Ok(None);
        }
        Ok(Some(TimeNet {
            rounds: network.rounds,
            width: columns.len(),
            first: 0,
            lone: LoneStays::none(alloc),
            cells,
            nodes: vec![in alloc; Node::EMPTY; cells as usize]?,
            units: network.above.len(),
            caps: tight_caps(alloc, network, columns)?,
        }))
    }

    /// How many nodes there are.
    pub fn len(&self) -> u32 {
        u32::try_from(self.nodes.len()).unwrap_or(u32::MAX)
    }

    /// The number of the node of a column in a round.
    #[inline]
    pub fn at(&self, round: u32, column: u32) -> u32 {
        round.saturating_mul(self.width).saturating_add(column)
    }

    /// The number of the node of a stay that stands alone.
    #[inline]
    pub fn at_lone(&self, lone: u32) -> u32 {
        self.cells.saturating_add(lone)
    }

    /// The number of the stay that stands alone whose node this is, if it is one.
    #[inline]
    pub fn lone_of(&self, number: u32) -> Option<u32> {
        number.checked_sub(self.cells)
    }

    /// Where a node of a round is.
    #[inline]
    pub fn spot(&self, number: u32) -> Spot {
        let round = number.checked_div(self.width).unwrap_or(0);
        Spot {
            number,
            round,
            column: number.saturating_sub(round.saturating_mul(self.width)),
        }
    }

    /// How many requests a column's unit may send in a round.
    #[inline]
    pub fn cap(&self, round: u32, column: &Column) -> u32 {
        let place = (round as usize)
            .saturating_mul(self.units)
            .saturating_add(column.unit as usize);
        self.caps.get(place).copied().unwrap_or(0)
    }

    /// A node, and an empty one past all.
    #[inline]
    pub fn node(&self, number: u32) -> Node {
        match self.nodes.get(number as usize) {
            Some(node) => *node,
            None => Node::EMPTY,
        }
    }

    /// A node to change, if there is one of this number.
    #[inline]
    pub fn node_mut(&mut self, number: u32) -> Option<&mut Node> {
        self.nodes.get_mut(number as usize)
    }

    /// The node of the same column in the next round, if there is one.
    #[inline]
    pub fn next(&self, number: u32) -> Option<u32> {
        let next = number.checked_add(self.width)?;
        if next < self.cells { Some(next) } else { None }
    }

    /// The node of the same column in the round before, if searches know that round.
    #[inline]
    pub fn previous(&self, spot: &Spot) -> Option<u32> {
        if spot.round > self.first {
            spot.number.checked_sub(self.width)
        } else {
            None
        }
    }

    /// The potential of the unit above a column in a round, and 0 if there is none.
    #[inline]
    pub fn potential_above(&self, round: u32, column: &Column) -> i32 {
        match column.above {
            Some(above) => self.node(self.at(round, above)).potential,
            None => 0,
        }
    }

    /// What the cheapest path of those that wait at a row costs one request more, if it can wait.
    #[inline]
    pub fn potential_of_waiting(&self, number: u32, column: &Column) -> Option<i32> {
        let next = self.next(number)?;
        let weight = as_potential(column.weight);
        Some(self.node(next).potential.saturating_add(weight))
    }

    /// Sets a node's potential.
    #[inline]
    pub fn set_potential(&mut self, number: u32, potential: i32) {
        if let Some(node) = self.nodes.get_mut(number as usize) {
            node.potential = potential;
        }
    }

    /// Sets how many go on from a node.
    #[inline]
    pub fn set_flow(&mut self, number: u32, flow: u32) {
        if let Some(node) = self.nodes.get_mut(number as usize) {
            node.flow = flow;
        }
    }

    /// Sets how many wait at a node.
    #[inline]
    pub fn set_wait(&mut self, number: u32, wait: u32) {
        if let Some(node) = self.nodes.get_mut(number as usize) {
            node.wait = wait;
        }
    }

    /// Adds to a node's imbalance.
    #[inline]
    pub fn add_imbalance(&mut self, number: u32, more: i32) {
        if let Some(node) = self.nodes.get_mut(number as usize) {
            node.imbalance = node.imbalance.saturating_add(more);
        }
    }

    /// Makes room for stays that stand alone.
    pub fn prepare_lone(&mut self, alloc: Global, network: &Network) -> Result<(), AllocError> {
        self.lone = LoneStays::of(alloc, self.units, network.rounds, network.stays.len())?;
        Ok(())
    }

    /// Adds a stay that stands alone, with the potential of its node. If it isn't sent in any round, its imbalance is 1.
    pub fn add_lone(&mut self, lone: LoneStay, potential: i32) -> Result<(), AllocError> {
        self.nodes.push(Node {
            potential,
            imbalance: if lone.sent.is_some() { 0 } else { 1 },
            ..Node::EMPTY
        })?;
        self.lone.add(lone)
    }

    /// Takes one from those that wait in a row in each round from one on and before another.
    pub fn take_waits(&mut self, row: u32, first: u32, end: u32) {
        for round in first..end {
            let number = self.at(round, row);
            self.set_wait(number, self.node(number).wait.saturating_sub(1));
        }
    }

    /// Takes from what goes on from a column in a round and from all columns above it.
    pub fn take_flow(&mut self, columns: &Columns, round: u32, column: u32, less: u32) {
        let mut here = Some(column);
        for _ in 0..columns.len() {
            let Some(column) = here else {
                return;
            };
            let number = self.at(round, column);
            self.set_flow(number, self.node(number).flow.saturating_sub(less));
            here = columns.column(column).above;
        }
    }

    /// Takes what a row says that it sends, and doesn't, from its flow. Its unit then lacks so much.
    pub fn take_unused(&mut self, round: u32, row: u32, unit: u32, unused: u32) {
        if unused > 0 {
            let number = self.at(round, row);
            self.set_flow(number, self.node(number).flow.saturating_sub(unused));
            self.add_imbalance(self.at(round, unit), as_imbalance(unused).saturating_neg());
        }
    }

    /// Takes a node's imbalance above 0.
    pub fn take_imbalance(&mut self, number: u32) -> u32 {
        match self.nodes.get_mut(number as usize) {
            Some(node) => {
                let more = u32::try_from(node.imbalance).unwrap_or(0);
                node.imbalance = 0;
                more
            }
            None => 0,
        }
    }

    /// Adds to what goes on from a column in a round and from all columns above it.
    pub fn add_flow(&mut self, columns: &Columns, round: u32, column: u32, more: u32) {
        let mut here = Some(column);
        for _ in 0..columns.len() {
            let Some(column) = here else {
                return;
            };
            let number = self.at(round, column);
            self.set_flow(number, self.node(number).flow.saturating_add(more));
            here = columns.column(column).above;
        }
    }

    /// How many more may go on from a row in a round through all units above it.
    pub fn room(&self, columns: &Columns, round: u32, row: u32) -> u32 {
        let mut room = u32::MAX;
        let mut above = columns.column(row).above;
        for _ in 0..columns.len() {
            let Some(number) = above else {
                break;
            };
            let unit = columns.column(number);
            let flow = self.node(self.at(round, number)).flow;
            room = room.min(self.cap(round, &unit).saturating_sub(flow));
            above = unit.above;
        }
        room
    }
}

/// A cost as a potential.
#[inline]
pub fn as_potential(cost: u32) -> i32 {
    i32::try_from(cost).unwrap_or(i32::MAX)
}

/// A count as an imbalance.
#[inline]
pub fn as_imbalance(count: u32) -> i32 {
    i32::try_from(count).unwrap_or(i32::MAX)
}
