//! What there is to plan, and a guess at a best plan of it.

use crate::stop::Stop;

/// A stay that needs a round.
#[derive(Clone, Copy)]
pub struct Stay {
    /// The resource in whose cells it may stand.
    pub resource: u32,
    /// The first round that it may have, from 1.
    pub arrival: u32,
    /// The last one.
    pub last: u32,
    /// What each round of its waiting costs, at least 1.
    pub weight: u32,
}

/// Resources with a cell for each round, and stays. A stay in a cell also stands in the cell of the resource above, in that of
/// the resource above it, and so on.
#[derive(Drop)]
pub struct Problem {
    /// How many rounds there are.
    pub rounds: u32,
    /// The resource above each resource. Where a number is past all resources, there is none.
    pub above: Vec<u32>,
    /// How many stays each cell takes, resource by resource. Each resource begins with a place for a round 0, which takes none.
    pub caps: Vec<u32>,
    /// The stays.
    pub stays: Vec<Stay>,
}

impl Problem {
    /// A stay.
    pub fn stay(&self, number: u32) -> Result<Stay, Stop> {
        self.stays
            .get(number as usize)
            .copied()
            .ok_or(Stop::GivenUp)
    }
}

/// A guess at a best plan.
#[derive(Drop)]
pub struct Guess {
    /// A round for each stay.
    pub rounds: Vec<u32>,
    /// A potential for each cell, resource by resource, each resource with a place for round 0 before, and at the end one for the root above
    /// all resources. They are meant to show that the rounds are best.
    pub potentials: Vec<u64>,
}
