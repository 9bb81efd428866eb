//! The guess. Proved: it has a round for each stay and a potential for each cell and the root.

ghost use Rattle.std.specs.Prelude.{◌≡◌, ◌+◌, ◌*◌, length, IfOk};
ghost use Rattle.std.specs.Option.{IfSome};

use crate::answer::{potentials, rounds};
use crate::network::Network;
use crate::placing::place_all;
use crate::problem::{Guess, Problem};
use crate::search::Search;
use crate::stop::Stop;
use std::alloc::{AllocError, Global};

/// A guess at a best plan, or none where the problem has what the search isn't made for. It places one stay after another so
/// that those placed so far are sent as cheaply as they can be.
pub fn guess(alloc: Global, problem: &Problem) -> Result<Option<Guess>, AllocError>
    ensures rounds { IfOk result (λ found. IfSome found (λ guess. length guess.rounds.items ≡ length problem.now.stays.items)) }
    ensures potentials { IfOk result (λ found. IfSome found (λ guess. length guess.potentials.items ≡ length problem.now.above.items * (problem.now.rounds + 1) + 1)) }
{
    match search(alloc, problem) {
        Ok(guess) => Ok(Some(guess)),
        Err(Stop::GivenUp) => Ok(None),
        Err(Stop::OutOfMemory) => Err(AllocError),
    }
}

// The guess, or why there is none.
fn search(alloc: Global, problem: &Problem) -> Result<Guess, Stop>
    ensures rounds { IfOk result (λ guess. length guess.rounds.items ≡ length problem.now.stays.items) }
    ensures potentials { IfOk result (λ guess. length guess.potentials.items ≡ length problem.now.above.items * (problem.now.rounds + 1) + 1) }
{
    let root = problem.root()?;
    let network = placed(alloc, problem, root)?;
    let potentials = potentials(alloc, &network, root)?;
    let rounds = rounds(alloc, &network, problem)?;
    Ok(Guess { rounds, potentials })
}

// The network in which all stays are placed.
fn placed(alloc: Global, problem: &Problem, root: u32) -> Result<Network, Stop> {
    let mut network = problem.network(alloc, root)?;
    let mut search = Search::new(alloc, problem, root)?;
    place_all(alloc, &mut network, &mut search, problem)?;
    Ok(network)
}
