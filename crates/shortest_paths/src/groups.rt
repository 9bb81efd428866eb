//! Groups of stays that are alike but for their windows: those of one resource with one weight. If a search looked where
//! one of them could move, it needn't look there again for another one that is no nearer.

use crate::problem::{Problem, Stay};
use crate::stop::Stop;
use std::alloc::Global;

// A group: its weight; the last search that looked along its resource; from which round on it did, up to the last one of all; and
// how far that was from there, less what each round costs and each potential says.
#[derive(Clone, Copy)]
struct Group {
    weight: u32,
    turn: u32,
    first: u32,
    key: i64,
}

impl Group {
    // Up to which round a search has to look for a stay of the group, as `Groups::last_to_look` says. The group notes that the
    // search looked, where the stay's window goes up to the last round of all.
    fn last_to_look(&mut self, turn: u32, rounds: u32, stay: &Stay, key: i64) -> u32 {
        let looked = self.turn == turn && self.key <= key;
        if looked && self.first <= stay.arrival {
            return 0;
        }
        let last = if looked {
            stay.last.min(self.first.saturating_sub(1))
        } else {
            stay.last
        };
        if stay.last == rounds {
            self.turn = turn;
            self.first = stay.arrival;
            self.key = key;
        }
        last
    }
}

/// The groups, and that of each stay.
#[derive(Drop)]
pub struct Groups {
    groups: Vec<Group>,
    of: Vec<u32>,
    rounds: u32,
    turn: u32,
}

impl Groups {
    /// The groups of a problem's stays, along which no search has looked.
    pub fn of(alloc: Global, problem: &Problem) -> Result<Groups, Stop> {
        let of = Vec::with_capacity(alloc, problem.stays.len())?;
        let mut groups = Groups {
            groups: Vec::new(alloc),
            of,
            rounds: problem.rounds,
            turn: 0,
        };
        groups.add_stays(alloc, problem)?;
        Ok(groups)
    }

    // Gives each stay of a problem its group.
    fn add_stays(&mut self, alloc: Global, problem: &Problem) -> Result<(), Stop> {
        let mut resources = resources_of_none(alloc, problem.above.len())?;
        for stay in problem.stays.iter() {
            self.add_stay(&mut resources, stay)?;
        }
        Ok(())
    }

    // Gives the next stay its group, which is one of those of its resource.
    fn add_stay(&mut self, resources: &mut [Vec<u32>], stay: &Stay) -> Result<(), Stop> {
        let Some(known) = resources.get_mut(stay.resource as usize) else {
            return Err(Stop::GivenUp);
        };
        let group = self.group_of(known, stay.weight)?;
        self.of.push(group)?;
        Ok(())
    }

    // The group of this weight among those of a resource, or a new one.
    fn group_of(&mut self, known: &mut Vec<u32>, weight: u32) -> Result<u32, Stop> {
        if let Some(group) = self.find(known, weight) {
            return Ok(group);
        }
        let number = u32::try_from(self.groups.len()).ok().ok_or(Stop::GivenUp)?;
        self.groups.push(Group {
            weight,
            turn: 0,
            first: 0,
            key: 0,
        })?;
        known.push(number)?;
        Ok(number)
    }

    // The first of these groups that has the weight.
    fn find(&self, known: &[u32], weight: u32) -> Option<u32> {
        for group in known {
            if self.groups.get(*group as usize)?.weight == weight {
                return Some(*group);
            }
        }
        None
    }

    /// A search begins.
    pub fn begin(&mut self) {
        self.turn = self.turn.saturating_add(1);
    }

    /// Up to which round a search has to look where a stay could move, from its arrival on. Before its arrival it is 0.
    pub fn last_to_look(&mut self, number: u32, stay: &Stay, key: i64) -> Result<u32, Stop> {
        let of = self.of.get(number as usize).copied().ok_or(Stop::GivenUp)?;
        match self.groups.get_mut(of as usize) {
            Some(group) => Ok(group.last_to_look(self.turn, self.rounds, stay, key)),
            None => Err(Stop::GivenUp),
        }
    }
}

// For each resource, that it has no groups yet.
fn resources_of_none(alloc: Global, count: usize) -> Result<Vec<Vec<u32>>, Stop> {
    let mut resources = Vec::with_capacity(alloc, count)?;
    for _ in 0..count {
        resources.push(Vec::new(alloc))?;
    }
    Ok(resources)
}
