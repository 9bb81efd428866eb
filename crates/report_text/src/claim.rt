//! What a report claims: a schedule, prices, a cost and an excess.

use round_net::{Prices, Schedule};

/// What a report says of a net: a best schedule, what it costs, how much more the live one cost, and prices that are to
/// prove it.
#[derive(Debug, Drop)]
pub struct Claim {
    /// The round that is best for each stay, in creation order. It may be any round up to 65,535, and in a recording's
    /// report up to 1,048,576.
    pub schedule: Schedule,
    /// What an opening of each row is worth in each round.
    pub prices: Prices,
    /// The stated cost of the schedule, below 10^18 weighted rounds.
    pub best: u64,
    /// The stated excess of the live schedule over it, below 10^18 weighted rounds.
    pub excess: u64,
}
