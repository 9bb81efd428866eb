//! Who runs scripts, and what a run comes to.

ghost use Rattle.std.specs.Prelude.{◌≡◌, ◌-◌, ℕ, IfOk};
ghost use Rattle.trace_file.specs.Scenarios.{Scenario};
ghost use Rattle.sweep.specs.Runs.{IsSimTally};
ghost use Rattle.sweep.specs.declared.runner.Tally.{Tally as TheTally};

use crate::tally::sim_tally;
use std::alloc::{AllocError, Global};
use trace_file::Script;

/// What the waiting of a run cost, and how long it was.
#[derive(Clone, Copy)]
pub struct Numbers {
    /// The weighted rounds that all stays waited.
    pub live: u64,
    /// Those of a best schedule.
    pub best: u64,
    /// The rounds that 99 in a hundred stays didn't pass.
    pub p99: u32,
}

/// What a run comes to.
#[derive(Clone, Copy)]
pub enum Tally {
    /// It drained, and each stay was sent.
    Drained(Numbers),
    /// It didn't, and left that many commands.
    Left(u32),
}

/// Who runs scripts by seeds.
pub trait Runner {
    /// What the run of a script by a seed may come to.
    ghost comes_to: { Self → Scenario → ℕ → TheTally → Type 0 };

    /// Runs the script by the seed. It fails only if there is no memory.
    fn run(&self, script: &Script, seed: u64) -> Result<Tally, AllocError>
        ensures { IfOk result (comes_to self.now script.now seed) };
}

/// Runs scripts on the caller's thread, as `sim_run` does.
#[derive(Clone, Copy)]
pub struct SimRunner {
    /// Where the runs take their memory.
    pub alloc: Global,
}

impl Runner for SimRunner {
    ghost comes_to = { λ _. IsSimTally };

    fn run(&self, script: &Script, seed: u64) -> Result<Tally, AllocError> {
        sim_tally(self.alloc, script, seed)
    }
}
