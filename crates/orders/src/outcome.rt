//! The outcome of an order: its schedule, and how many stays it sends too late or not at all.

use round_net::Schedule;

/// What an order as it comes makes of a net.
#[derive(Drop)]
pub struct Ordered {
    /// The round in which each stay is sent, from 1; one more than the net has rounds if it isn't sent within them.
    pub schedule: Schedule,
    /// How many stays aren't sent within the rounds.
    pub unsent: u32,
    /// How many stays are sent within the rounds, but after the last one of their window.
    pub late: u32,
}
