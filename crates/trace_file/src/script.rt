//! What a script asks of a run.

ghost use Rattle.std.specs.Prelude.{◌≡◌, ◌<◌, ◌≤◌, [], length, map, replicate, IfOk, IsTrue};
ghost use Rattle.std.specs.List.{sum_by};
ghost use Rattle.trace_file.specs.Scenarios.{Scenario, add_item, empty_scenario, is_answer, is_ruled, push_at, MAX_ROWS};
ghost use Rattle.cam_types.specs.Questions.{names_lane};
ghost use Rattle.trace_file.specs.declared.script_row.ScriptItem.TheVariants as item;

use crate::script_rules::keep_rules;
use crate::step::Step;
use cam_types::{Config, Limits, Outcome};
use std::alloc::{AllocError, Global};
use std::marker::Model;

/// How many drivers a script may have.
pub const DRIVERS: usize = 8;

/// What a run has to do: its limits, its configuration, the steps of each driver, and what each lane answers.
#[derive(Debug, Drop)]
pub struct Script {
    config: Config,
    limits: Limits,
    drivers: Vec<Vec<Step>>,
    answers: Vec<Vec<Outcome>>,
}

impl Model for Script {
    ghost use Rattle.std.specs.Prelude.{map};
    ghost use Rattle.trace_file.specs.Scenarios.{Scenario, IsScenario};

    ghost Value = { Scenario };

    ghost view = { λ s. record { config = s.config; limits = s.limits; drivers = map (λ l. l.items) s.drivers.items; answers = map (λ l. l.items) s.answers.items } };

    ghost invariant = { λ s. IsScenario (record { config = s.config; limits = s.limits; drivers = map (λ l. l.items) s.drivers.items; answers = map (λ l. l.items) s.answers.items }) };
}

impl Script {
    ghost use Rattle.trace_file.specs.Scenarios.{IsScenario, scenario_by};
    ghost use Rattle.std.specs.Option.{IfNone};
    ghost use Rattle.std.specs.Prelude.{IfSome};

    /// A script of these steps of drivers and answers of lanes. There is none unless there are 8 lists of steps and one list of
    /// answers for each lane, at most 4,096 steps and 4,096 answers in all, each step is one that its driver may ask for (a
    /// submit by itself, a freeze, a release or an adjustment, of devices, adapters and numbers that are there and in their
    /// ranges; or a pause), and no answer has status 00.
    pub fn new(
        config: Config,
        limits: Limits,
        drivers: Vec<Vec<Step>>,
        answers: Vec<Vec<Outcome>>,
    ) -> Option<Script>
        ensures made { IfSome result (λ s. s ≡ scenario_by config limits (map (λ l. l.items) drivers.items) (map (λ l. l.items) answers.items)) }
        ensures refused { IfNone result (IsScenario (scenario_by config limits (map (λ l. l.items) drivers.items) (map (λ l. l.items) answers.items)) → ⊥) }
    {
        if !keep_rules(&config, &drivers, &answers) {
            return None;
        }
        Some(Script {
            config,
            limits,
            drivers,
            answers,
        })
    }

    /// A script without any step or answer.
    pub(crate) fn empty(alloc: Global, config: Config, limits: Limits) -> Result<Script, AllocError>
        ensures { IfOk result (λ s. s ≡ empty_scenario config limits) }
    {
        let lanes = config.lanes().len();
        Ok(Script {
            config,
            limits,
            drivers: empty_lists(alloc, DRIVERS)?,
            answers: empty_lists(alloc, lanes)?,
        })
    }

    /// The configuration.
    pub fn config(&self) -> &Config
        ensures { result.now ≡ self.now.config }
    {
        &self.config
    }

    /// How far the run's transport goes.
    pub fn limits(&self) -> Limits
        ensures { result ≡ self.now.limits }
    {
        self.limits
    }

    /// The steps of each of the 8 drivers, in order, and at most 4,096 in all. What a step calls for names devices, adapters
    /// and numbers that are there and in their ranges.
    pub fn drivers(&self) -> &[Vec<Step>]
        ensures same { map (λ steps. steps.items) result.now ≡ self.now.drivers }
        ensures kept { IsScenario self.now }
    {
        &self.drivers
    }

    /// What each lane answers, in order, to the commands that it serves: at most 4,096 outcomes in all. None has status 00.
    pub fn answers(&self) -> &[Vec<Outcome>]
        ensures same { map (λ outcomes. outcomes.items) result.now ≡ self.now.answers }
        ensures kept { IsScenario self.now }
    {
        &self.answers
    }

    /// The script with a step more at the end of a driver's.
    pub(crate) fn with_step(self, driver: u8, step: Step) -> Result<Script, AllocError>
        requires driver { driver ≤ 7 }
        requires ruled { IsTrue (is_ruled self.config driver step) }
        requires room { sum_by length self.drivers < MAX_ROWS }
        ensures { IfOk result (λ s. s ≡ add_item self (item.Step driver step)) }
    {
        let Script {
            config,
            limits,
            drivers,
            answers,
        } = self;
        Ok(Script {
            config,
            limits,
            drivers: step_pushed(drivers, usize::from(driver), step)?,
            answers,
        })
    }

    /// The script with an answer more at the end of a lane's.
    pub(crate) fn with_answer(self, lane: u32, outcome: Outcome) -> Result<Script, AllocError>
        requires lane { IsTrue (names_lane self.config lane) }
        requires status { IsTrue (is_answer outcome) }
        requires room { sum_by length self.answers < MAX_ROWS }
        ensures { IfOk result (λ s. s ≡ add_item self (item.Answer lane outcome)) }
    {
        let Script {
            config,
            limits,
            drivers,
            answers,
        } = self;
        Ok(Script {
            config,
            limits,
            drivers,
            answers: pushed_at(answers, lane as usize, outcome)?,
        })
    }
}

// That many empty lists.
fn empty_lists<T: Drop>(alloc: Global, count: usize) -> Result<Vec<Vec<T>>, AllocError>
    ensures { IfOk result (λ lists. map (λ l. l.items) lists.items ≡ replicate count []) }
{
    let mut lists = Vec::with_capacity(alloc, count)?;
    for _ in 0..count {
        lists.push(Vec::new(alloc))?;
    }
    Ok(lists)
}

// The lists with one item more at the end of the one of this number.
fn pushed_at<T: Drop>(mut lists: Vec<Vec<T>>, at: usize, item: T) -> Result<Vec<Vec<T>>, AllocError>
    requires { at < length lists.items }
    ensures { IfOk result (λ more. map (λ l. l.items) more.items ≡ push_at (map (λ l. l.items) lists.items) at item) }
{
    lists[at].push(item)?;
    Ok(lists)
}

// Each kind of step by itself: a step is moved only where the type of its event is in sight.
fn step_pushed(drivers: Vec<Vec<Step>>, at: usize, step: Step) -> Result<Vec<Vec<Step>>, AllocError>
    requires { at < length drivers.items }
    ensures { IfOk result (λ more. map (λ l. l.items) more.items ≡ push_at (map (λ l. l.items) drivers.items) at step) }
{
    match step {
        Step::Act(event) => pushed_at(drivers, at, Step::Act(event)),
        Step::Pause(round) => pushed_at(drivers, at, Step::Pause(round)),
    }
}
