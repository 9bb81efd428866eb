//! The rules of a script's steps and answers.

ghost use Rattle.std.specs.Prelude.{◌≡◌, ◌≤◌, ◌<◌, ℕ, true, false, length, map, get_or, [], nat_le};
ghost use Rattle.std.specs.List.{list_all, sum_by};
ghost use Rattle.cam_types.specs.Bounds.{Bounds};
ghost use Rattle.trace_file.specs.Scenarios.{IsScenario, scenario_by, is_ruled, is_answer, MAX_ROWS};
ghost use Rattle.trace_file.specs.declared.step.Step.TheVariants as Step;

use crate::script::DRIVERS;
use crate::script_item::is_in_progress;
use crate::script_parser::MAX_ROWS;
use crate::step::Step;
use cam_types::{Config, MAX_PRIORITY, MAX_RETRIES, Outcome, are_openings};
use event_rules::{Event, is_count};

/// Whether these steps of drivers and answers of lanes keep the rules of a script of the configuration.
pub(crate) fn keep_rules(config: &Config, drivers: &[Vec<Step>], answers: &[Vec<Outcome>]) -> bool
    ensures kept { (limits : Bounds) → result ≡ true → IsScenario (scenario_by config.now limits (map (λ l. l.items) drivers.now) (map (λ l. l.items) answers.now)) }
    ensures broken { (limits : Bounds) → result ≡ false → IsScenario (scenario_by config.now limits (map (λ l. l.items) drivers.now) (map (λ l. l.items) answers.now)) → ⊥ }
{
    if drivers.len() != DRIVERS {
        return false;
    }
    if answers.len() != config.lanes().len() {
        return false;
    }
    if !are_few(drivers) {
        return false;
    }
    if !are_few(answers) {
        return false;
    }
    if !are_answers(answers) {
        return false;
    }
    are_ruled(config, drivers)
}

// There are at most 4,096 items in all of these lists.
fn are_few<T>(lists: &[Vec<T>]) -> bool
    ensures { result ≡ nat_le (sum_by (λ l. length l.items) lists.now) MAX_ROWS }
{
    let mut left = MAX_ROWS as usize;
    for list in lists {
        if list.len() > left {
            return false;
        }
        left -= list.len();
    }
    true
}

// No lane answers with status 00.
fn are_answers(answers: &[Vec<Outcome>]) -> bool
    ensures { result ≡ list_all (λ l. list_all is_answer l.items) answers.now }
{
    answers.iter().all(|outcomes| each_answers(outcomes))
}

fn each_answers(outcomes: &[Outcome]) -> bool
    ensures { result ≡ list_all is_answer outcomes.now }
{
    outcomes.iter().all(|outcome| is_answer(outcome))
}

fn is_answer(outcome: &Outcome) -> bool
    ensures { result ≡ is_answer outcome.now }
{
    !is_in_progress(outcome)
}

// Each driver's steps are such as it may ask for.
fn are_ruled(config: &Config, drivers: &[Vec<Step>]) -> bool
    requires { length drivers.now ≡ 8 }
    ensures ruled { result ≡ true → (driver : ℕ) → driver < 8 → list_all (is_ruled config.now driver) (get_or (map (λ l. l.items) drivers.now) driver []) ≡ true }
    ensures broken { result ≡ false → ((driver : ℕ) → driver < 8 → list_all (is_ruled config.now driver) (get_or (map (λ l. l.items) drivers.now) driver []) ≡ true) → ⊥ }
{
    for driver in 0..DRIVERS {
        if !each_is_ruled(config, driver as u8, &drivers[driver]) {
            return false;
        }
    }
    true
}

fn each_is_ruled(config: &Config, driver: u8, steps: &[Step]) -> bool
    ensures { result ≡ list_all (is_ruled config.now driver) steps.now }
{
    steps.iter().all(|step| is_ruled(config, driver, *step))
}

fn is_ruled(config: &Config, driver: u8, step: Step) -> bool
    ensures { result ≡ is_ruled config.now driver step }
{
    match step {
        Step::Act(event) => is_ruled_event(config, driver, event),
        Step::Pause(_) => true,
    }
}

fn is_ruled_event(config: &Config, driver: u8, event: Event) -> bool
    ensures { result ≡ is_ruled config.now driver (Step.Act event) }
{
    match event {
        Event::Submit {
            driver: by,
            device,
            priority,
            retries,
            ..
        } => {
            by == driver
                && config.names_device(device)
                && priority <= MAX_PRIORITY
                && retries <= MAX_RETRIES
        }
        Event::FreezeDev { device, count } | Event::ReleaseDev { device, count } => {
            config.names_device(device) && is_count(count)
        }
        Event::FreezeSim { sim, count } => config.names_adapter(sim) && is_count(count),
        Event::ReleaseSim { sim } => config.names_adapter(sim),
        Event::Adjust { device, openings } => {
            config.names_device(device) && are_openings(openings)
        }
        _ => false,
    }
}
