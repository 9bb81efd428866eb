//! Dijkstra's algorithm on reduced costs (Edmonds and Karp 1972; Tomizawa 1971): the cheapest path from a stay to the root.
//! The reduced cost of an arc is its cost less the potential of its tail plus that of its head.

use crate::buckets::Buckets;
use crate::groups::Groups;
use crate::network::Network;
use crate::problem::{Problem, Stay};
use crate::stop::Stop;
use std::alloc::Global;

/// How many nodes a search may take out of its queue, for each node of the network.
const TURNS: u32 = 64;

// How a search reached a node.
#[derive(Clone, Copy)]
struct Mark {
    distance: u32,
    from: Option<u32>,
}

const UNREACHED: Mark = Mark {
    distance: u32::MAX,
    from: None,
};

/// A search, whose memory serves one after another.
#[derive(Drop)]
pub struct Search {
    marks: Vec<Mark>,
    reached: Vec<u32>,
    queue: Buckets,
    groups: Groups,
    best: u32,
}

impl Search {
    /// A search among the cells of a problem, of which there are as many as the root's number.
    pub fn new(alloc: Global, problem: &Problem, root: u32) -> Result<Search, Stop> {
        let nodes = root.checked_add(1).ok_or(Stop::GivenUp)?;
        let marks = vec![in alloc; UNREACHED; nodes as usize]?;
        let groups = Groups::of(alloc, problem)?;
        Ok(Search {
            marks,
            reached: Vec::new(alloc),
            queue: Buckets::new(alloc),
            groups,
            best: u32::MAX,
        })
    }

    /// Searches a path from a stay to the root that is shorter than the bound, and answers whether there is one. Distances are
    /// counted from the stay's potential, which is given.
    pub fn run(
        &mut self,
        network: &Network,
        problem: &Problem,
        number: u32,
        potential: u32,
        bound: u32,
    ) -> Result<bool, Stop> {
        self.forget();
        self.best = bound;
        let stay = problem.stay(number)?;
        let start = before(-i64::from(potential), &stay, stay.arrival);
        self.look_along(network, problem, number, &stay, start)?;
        self.look_on(network, problem)?;
        Ok(self.best < bound)
    }

    // Looks from one node after another, the nearest first, until none is nearer than the root.
    fn look_on(&mut self, network: &Network, problem: &Problem) -> Result<(), Stop> {
        for _ in 0..network.len().saturating_mul(TURNS) {
            match self.queue.pop() {
                Some((cell, distance)) if distance < self.best => {
                    self.look_from(network, problem, cell, distance)?;
                }
                _ => return Ok(()),
            }
        }
        Err(Stop::GivenUp)
    }

    /// How a node was reached by the path that was found, and none where it wasn't.
    pub fn came_from(&self, number: u32) -> Option<u32> {
        self.marks.get(number as usize)?.from
    }

    /// Raises the potential of each cell that is nearer than the root by how much nearer it is.
    pub fn raise_potentials(&self, network: &mut Network) -> Result<(), Stop> {
        for cell in &self.reached {
            let distance = self.mark(*cell)?.distance;
            if distance < self.best {
                network.raise(*cell, self.best - distance)?;
            }
        }
        Ok(())
    }

    fn forget(&mut self) {
        unmark(&mut self.marks, &self.reached);
        self.reached.clear();
        self.queue.clear();
        self.groups.begin();
    }

    fn mark(&self, number: u32) -> Result<Mark, Stop> {
        self.marks
            .get(number as usize)
            .copied()
            .ok_or(Stop::GivenUp)
    }

    // Reaches a node by a path, if that is the shortest so far.
    fn reach(
        &mut self,
        network: &Network,
        number: u32,
        distance: i64,
        from: u32,
    ) -> Result<(), Stop> {
        if distance >= i64::from(self.best) {
            return Ok(());
        }
        let distance = u32::try_from(distance).ok().ok_or(Stop::GivenUp)?;
        if !self.shorten(number, distance, from)? {
            return Ok(());
        }
        if number == network.root() {
            self.best = distance;
            return Ok(());
        }
        self.queue.push(number, distance)
    }

    // Marks a node with a path to it, if that is the shortest so far, and says whether it is.
    fn shorten(&mut self, number: u32, distance: u32, from: u32) -> Result<bool, Stop> {
        let mark = self.marks.get_mut(number as usize).ok_or(Stop::GivenUp)?;
        let known = mark.distance;
        if distance >= known {
            return Ok(false);
        }
        *mark = Mark {
            distance,
            from: Some(from),
        };
        if known == u32::MAX {
            self.reached.push(number)?;
        }
        Ok(true)
    }

    // Reaches a node by a path. The key is the length of the path without the node's potential.
    fn reach_by_key(
        &mut self,
        network: &Network,
        number: u32,
        key: i64,
        from: u32,
    ) -> Result<(), Stop> {
        let potential = network.node(number)?.potential;
        self.reach(
            network,
            number,
            key.saturating_add(i64::from(potential)),
            from,
        )
    }

    // Reaches the nodes to which a cell leads, if this is its distance: the one above if it has room, the cells below that send
    // it stays, which could send one less, and those to which its stays could move.
    fn look_from(
        &mut self,
        network: &Network,
        problem: &Problem,
        cell: u32,
        distance: u32,
    ) -> Result<(), Stop> {
        if self.mark(cell)?.distance != distance {
            return Ok(());
        }
        let node = network.node(cell)?;
        let key = i64::from(distance) - i64::from(node.potential);
        if node.has_room() {
            self.reach_by_key(network, node.above, key, cell)?;
        }
        self.look_below(network, problem, cell, key)
    }

    // Reaches the nodes to which a cell leads through the nodes that send it stays.
    fn look_below(
        &mut self,
        network: &Network,
        problem: &Problem,
        cell: u32,
        key: i64,
    ) -> Result<(), Stop> {
        let mut sender = network.first_sender(cell);
        for _ in 0..network.len() {
            let Some(from) = sender else {
                return Ok(());
            };
            match network.stay_of(from) {
                Some(number) => self.look_at(network, problem, number, cell, key)?,
                None => self.reach_by_key(network, from, key, cell)?,
            }
            sender = network.next_sender(from);
        }
        Err(Stop::GivenUp)
    }

    // Reaches the cells to which a stay in a cell could move.
    fn look_at(
        &mut self,
        network: &Network,
        problem: &Problem,
        number: u32,
        cell: u32,
        key: i64,
    ) -> Result<(), Stop> {
        let stay = problem.stay(number)?;
        let round = cell.saturating_sub(problem.cell(stay.resource, 0));
        self.look_along(network, problem, number, &stay, before(key, &stay, round))
    }

    // Reaches the cells of a stay's window, by how far they would be in a round 0 with potentials 0.
    fn look_along(
        &mut self,
        network: &Network,
        problem: &Problem,
        number: u32,
        stay: &Stay,
        key: i64,
    ) -> Result<(), Stop> {
        let last = self.groups.last_to_look(number, stay, key)?;
        let from = network.stay_node(number);
        for round in stay.arrival..last.saturating_add(1) {
            let waits = i64::from(stay.weight).saturating_mul(i64::from(round));
            let ahead = key.saturating_add(waits);
            if ahead >= i64::from(self.best) {
                break;
            }
            let cell = problem.cell(stay.resource, round);
            self.reach_by_key(network, cell, ahead, from)?;
        }
        Ok(())
    }
}

// Takes back how nodes were reached.
fn unmark(marks: &mut [Mark], reached: &[u32]) {
    for cell in reached {
        if let Some(mark) = marks.get_mut(*cell as usize) {
            *mark = UNREACHED;
        }
    }
}

// A distance less what a stay's waiting up to a round costs.
fn before(distance: i64, stay: &Stay, round: u32) -> i64 {
    let waits = i64::from(stay.weight).saturating_mul(i64::from(round));
    distance.saturating_sub(waits)
}
