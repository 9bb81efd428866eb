//! A script of arrivals and answers.

ghost use Rattle.std.specs.Prelude.{◌≡◌, ◌*◌, ◌≤◌, true, None, length, map, sum_by, find, nat_lt, All, IfOk, MatchResult};
ghost use Rattle.std.specs.List.{list_all};
ghost use Rattle.cam_types.specs.declared.limits.TheConstants.{MAX_EVENTS};
ghost use Rattle.cam_types.specs.Bounds.{max_bounds};
ghost use Rattle.event_rules.specs.Laws.{is_in_range};
ghost use Rattle.trace_file.specs.Scenarios.{is_answer, scenario_by};
ghost use Rattle.trace_file.specs.declared.script_parser.TheConstants.{MAX_ROWS};
ghost use Rattle.conversions.specs.Arrivals.{Arrival};
ghost use Rattle.conversions.specs.Faults.{arrivals_fault, driver_fault, too_many_steps, IsFault};
ghost use Rattle.conversions.specs.Steps.{drivers_of};

use crate::arrival::Arrival;
use crate::drivers::drivers_of;
use crate::fault::ScriptFault;
use cam_types::{Config, Limits, Outcome};
use std::alloc::Global;
use trace_file::{MAX_ROWS, Script, Step};

/// The script of this configuration, of drivers that ask for these in their rounds, and of lanes that answer so.
///
/// # Errors
///
/// `Driver` names the first driver beyond 7. `Steps` if there are more than 4,096. `OutOfMemory` if no memory is left.
pub(crate) fn script_by(
    alloc: Global,
    config: Config,
    all: &[Arrival],
    answers: Vec<Vec<Outcome>>,
) -> Result<Script, ScriptFault>
    requires short { length all.now ≤ MAX_EVENTS }
    requires ruled { list_all (λ (a : Arrival). is_in_range config a.submission) all.now ≡ true }
    requires lanes { length answers.items ≡ length config.lanes }
    requires answered { list_all (λ l. list_all is_answer l.items) answers.items ≡ true }
    requires few { sum_by (λ l. length l.items) answers.items ≤ MAX_ROWS }
    ensures script { IfOk result (λ s. s ≡ scenario_by config max_bounds (drivers_of all.now) (map (λ l. l.items) answers.items)) }
    ensures fault { MatchResult result
        (λ _. arrivals_fault all.now ≡ None)
        (λ fault. IsFault (arrivals_fault all.now) fault) }
{
    if let Some(fault) = driver_fault(all) {
        return Err(fault);
    }
    let drivers = drivers_of(alloc, all)?;
    if let Some(fault) = too_many_steps(steps_in(&drivers)) {
        return Err(fault);
    }
    match Script::new(config, Limits::most(), drivers, answers) {
        Some(script) => Ok(script),
        None => unreachable!(),
    }
}

// The first driver beyond 7.
#[tactic(auto, unfolding(crate::specs::Faults::driver_fault))]
fn driver_fault(all: &[Arrival]) -> Option<ScriptFault>
    ensures { result ≡ driver_fault all.now }
{
    match first_beyond(all) {
        Some(arrival) => Some(ScriptFault::Driver(arrival.submission.driver)),
        None => None,
    }
}

fn first_beyond(all: &[Arrival]) -> Option<Arrival>
    ensures { result ≡ find (λ (a : Arrival). nat_lt 7 a.submission.driver) all.now }
{
    all.iter()
        .copied()
        .find(|arrival| arrival.submission.driver > 7)
}

// How many steps all drivers have.
fn steps_in(drivers: &[Vec<Step>]) -> u32
    requires eight { length drivers.now ≡ 8 }
    requires each { All (λ l. length l.items ≤ 2 * MAX_EVENTS) drivers.now }
    ensures { result ≡ sum_by (λ l. length l.items) drivers.now }
{
    let mut count = 0;
    for steps in drivers {
        count += steps.len() as u32;
    }
    count
}

fn too_many_steps(count: u32) -> Option<ScriptFault>
    ensures { result ≡ too_many_steps count }
{
    if count > MAX_ROWS {
        Some(ScriptFault::Steps(count))
    } else {
        None
    }
}
