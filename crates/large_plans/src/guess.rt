//! A guess at a best plan.

ghost use Rattle.std.specs.Prelude.{◌≡◌, ◌*◌, length, IfOk};

use crate::network::Network;
use std::alloc::{AllocError, Global};

/// A guess at a best plan: when each stay is sent so that their waiting costs least in all.
#[derive(Drop)]
pub struct Guess {
    /// The round in which each stay is sent, from 0.
    pub rounds: Vec<u32>,
    /// What it would save if a unit could send one request more in a round, in weighted rounds, unit by unit. They are meant to
    /// show that no plan costs less.
    pub prices: Vec<u64>,
}

impl Guess {
    /// All stays are sent in the first round, and prices are 0.
    pub(crate) fn blank(alloc: Global, network: &Network) -> Result<Guess, AllocError>
        ensures rounds { IfOk result (λ guess. length guess.rounds.items ≡ length network.now.stays.items) }
        ensures prices { IfOk result (λ guess. length guess.prices.items ≡ length network.now.above.items * network.now.rounds) }
    {
        let Some(places) = network.above.len().checked_mul(network.rounds as usize) else {
            return Err(AllocError);
        };
        Ok(Guess {
            rounds: vec![in alloc; 0; network.stays.len()]?,
            prices: vec![in alloc; 0; places]?,
        })
    }
}
