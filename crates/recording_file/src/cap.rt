//! How many requests a device, an adapter or a link takes in a round.

use crate::part::Part;

/// A cap: in each of these rounds the part takes at most that many requests, in place of its openings.
#[derive(Clone, Copy, Debug, PartialEq, Eq)]
pub struct Cap {
    /// What takes them.
    pub part: Part,
    /// The first round, from 1 on.
    pub first: u32,
    /// The last round.
    pub last: u32,
    /// How many it takes in each of these rounds, 0 to 65,535.
    pub most: u32,
}
