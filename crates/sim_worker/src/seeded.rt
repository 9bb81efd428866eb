//! The run of a script by a seed.

ghost use Rattle.std.specs.Prelude.{◌≡◌, IfOk};
ghost use Rattle.sim_worker.specs.SimRuns.{IsSimRun};

use crate::ending::Ending;
use crate::sim::Sim;
use cam_event::History;
use rand_core::SeedableRng;
use rand_pcg::Lcg64Xsh32;
use std::alloc::{AllocError, Global};
use trace_file::Script;

/// What a run on one thread gives.
#[derive(Drop)]
pub struct SimRun {
    /// All that happened.
    pub history: History,
    /// Why no more happened.
    pub ending: Ending,
    /// By which seed it was run.
    pub seed: u64,
}

/// Runs the script on one thread. Drivers, lanes and recovery take turns, of which each is one call of the transport;
/// the seed picks whose turn it is, so a script and a seed always give the same history. A round opens where no one else
/// can act.
///
/// Each turn takes the next 32-bit word of PCG XSH RR 64/32 seeded by the number. Those that can act stand in order:
/// drivers by number, lanes by number, recovery; the word's remainder by their count picks one. A refused call uses its
/// turn, and is made again in the next round.
pub fn sim_run(alloc: Global, script: &Script, seed: u64) -> Result<SimRun, AllocError>
    ensures run { IfOk result (λ run. IsSimRun script.now run.history run.ending) }
    ensures seed { IfOk result (λ run. run.seed ≡ seed) }
{
    let mut sim = Sim::open(alloc, script)?;
    let mut random = Lcg64Xsh32::seed_from_u64(seed);
    let mut able = Vec::new(alloc);
    let ending = loop {
        if let Some(ending) = sim.turn(&mut random, &mut able)? {
            break ending;
        }
    };
    sim.into_run(alloc, ending, seed)
}
