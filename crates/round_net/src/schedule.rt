//! A round for each stay.

ghost use Rattle.std.specs.Prelude.{◌≡◌, ◌<◌, ◌==◌, length, slice_index, IfOk};

use std::alloc::{AllocError, Global};
use std::marker::Model;

/// A round for each stay, in creation order. It may be any round, one that a net doesn't have among them.
#[derive(Debug, Drop)]
pub struct Schedule {
    rounds: Vec<u32>,
}

impl Model for Schedule {
    ghost use Rattle.std.specs.Prelude.{List, ℕ};

    ghost Value = { List ℕ };

    ghost view = { λ s. s.rounds.items };
}

impl Schedule {
    /// The schedule of these rounds.
    pub fn new(alloc: Global, rounds: &[u32]) -> Result<Schedule, AllocError>
        ensures { IfOk result (λ schedule. schedule ≡ rounds.now) }
    {
        Ok(Schedule {
            rounds: rounds.to_vec(alloc)?,
        })
    }

    /// How many stays it has rounds for.
    pub fn len(&self) -> usize
        ensures { result ≡ length self.now }
    {
        self.rounds.len()
    }

    /// Whether it has a round for no stay.
    pub fn is_empty(&self) -> bool
        ensures { result ≡ (length self.now == 0) }
    {
        self.rounds.is_empty()
    }

    /// The round of the stay of this number.
    pub fn round(&self, stay: u32) -> u32
        requires { stay < length self.now }
        ensures { result ≡ slice_index self.now stay }
    {
        self.rounds[stay as usize]
    }
}
