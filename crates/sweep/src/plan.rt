//! What is run in a sweep.

ghost use Rattle.std.specs.Prelude.{◌≡◌, ◌≤◌, ◌<◌, ◌*◌, length, IfOk, None, Err};
ghost use Rattle.std.specs.Option.{IfSome, IfNone};
ghost use Rattle.sweep.specs.Settings.{changes_of, settings, Choice as TheChoice};
ghost use Rattle.sweep.specs.Choices.{choices_fault, HaveSome};
ghost use Rattle.sweep.specs.Plans.{MAX_RUNS};
ghost use Rattle.sweep.specs.declared.plan.PlanFault.TheVariants.{NoSeeds, TooManyRuns, OutOfMemory};

use crate::setting::{Choice, Setting, settings};
use cam_types::Config;
use std::alloc::{AllocError, Global};
use std::marker::Model;
use thiserror::Error;

/// The most runs of a sweep, of all settings by all seeds.
pub const MAX_RUNS: usize = 4096;

/// Why there is nothing to run.
#[derive(Clone, Copy, Debug, Error)]
pub enum PlanFault {
    /// No seed runs a setting.
    #[error("a sweep has at least 1 seed")]
    NoSeeds,
    /// There are more than 4,096 runs of all settings by all seeds.
    #[error("a sweep has at most 4096 runs, of all settings by all seeds")]
    TooManyRuns,
    /// There is no memory left.
    #[error("out of memory")]
    OutOfMemory,
}

impl From<AllocError> for PlanFault {
    ghost from_gives = { λ _ e. e ≡ OutOfMemory };

    fn from(_error: AllocError) -> PlanFault {
        PlanFault::OutOfMemory
    }
}

/// Some settings and a number of seeds: each setting is to be run by each seed from 1 to that number.
#[derive(Drop)]
pub struct SweepPlan {
    settings: Vec<Setting>,
    seeds: u32,
}

impl Model for SweepPlan {
    ghost use Rattle.sweep.specs.Settings.{changes_of};
    ghost use Rattle.sweep.specs.Plans.{Plan, IsPlan};

    ghost Value = { Plan };

    ghost view = { λ p. record { settings = changes_of p.settings.items; seeds = p.seeds } };

    ghost invariant = { λ p. IsPlan (record { settings = changes_of p.settings.items; seeds = p.seeds }) };
}

impl SweepPlan {
    ghost use Rattle.sweep.specs.Plans.{IsPlan};

    /// All settings that the choices make, by that many seeds.
    ///
    /// # Errors
    ///
    /// `NoSeeds` if there is no seed, `TooManyRuns` if all settings by all seeds make more than 4,096 runs, `OutOfMemory`.
    pub fn of(
        alloc: Global,
        config: &Config,
        choices: &[Choice],
        seeds: u32,
    ) -> Result<SweepPlan, PlanFault>
        requires { choices_fault config.now choices.now ≡ None }
        ensures made { IfOk result (λ p. p ≡ record { settings = settings choices.now; seeds = seeds }) }
        ensures none { result ≡ Err NoSeeds → seeds ≡ 0 }
        ensures many { result ≡ Err TooManyRuns → MAX_RUNS < length (settings choices.now) * seeds }
    {
        if seeds < 1 {
            return Err(PlanFault::NoSeeds);
        }
        let Some(_runs) = run_count(choices, seeds) else {
            return Err(PlanFault::TooManyRuns);
        };
        Ok(SweepPlan {
            settings: settings(alloc, choices)?,
            seeds,
        })
    }

    /// The settings, in order.
    pub fn settings(&self) -> &[Setting]
        ensures same { changes_of result.now ≡ self.now.settings }
        ensures kept { IsPlan self.now }
    {
        &self.settings
    }

    /// How many seeds run each of them.
    pub fn seeds(&self) -> u32
        ensures same { result ≡ self.now.seeds }
        ensures kept { IsPlan self.now }
    {
        self.seeds
    }

    /// How many runs there are, at most 4,096.
    pub fn runs(&self) -> u32
        ensures same { result ≡ length self.now.settings * self.now.seeds }
        ensures few { result ≤ MAX_RUNS }
    {
        self.settings.len() as u32 * self.seeds
    }
}

// How many runs there are of the settings that the choices make, each by that many seeds; none if they are too many.
fn run_count(choices: &[Choice], seeds: u32) -> Option<usize>
    requires some { HaveSome choices.now }
    requires seeds { 1 ≤ seeds }
    ensures few { IfSome result (λ n. (n ≡ length (settings choices.now) * seeds) × (n ≤ MAX_RUNS) × (1 ≤ n)) }
    ensures many { IfNone result (MAX_RUNS < length (settings choices.now) * seeds) }
{
    let Some((first, rest)) = choices.split_first() else {
        return few(1, seeds as usize);
    };
    few(first.openings.len(), run_count(rest, seeds)?)
}

// The product, unless it is more than the most runs.
fn few(times: usize, runs: usize) -> Option<usize>
    requires times { 1 ≤ times }
    requires runs { 1 ≤ runs }
    ensures few { IfSome result (λ n. (n ≡ times * runs) × (n ≤ MAX_RUNS) × (1 ≤ n)) }
    ensures many { IfNone result (MAX_RUNS < times * runs) }
{
    if times > MAX_RUNS / runs {
        return None;
    }
    Some(times * runs)
}
