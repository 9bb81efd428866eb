//! The steps of drivers.

ghost use Rattle.std.specs.Prelude.{◌≡◌, ◌++◌, map, filter, IfOk, OnOk};
ghost use Rattle.conversions.specs.Steps.{drivers_of, is_by, steps_for, steps_from, steps_of, submit};

use crate::arrival::Arrival;
use event_rules::{Event, Submission};
use std::alloc::{AllocError, Global};
use trace_file::{DRIVERS, Step};

/// The steps of each of the 8 drivers. It fails only if there is no memory.
#[tactic(auto, unfolding(crate::specs::Steps::drivers_of))]
pub(crate) fn drivers_of(alloc: Global, all: &[Arrival]) -> Result<Vec<Vec<Step>>, AllocError>
    ensures { IfOk result (λ drivers. map (λ l. l.items) drivers.items ≡ drivers_of all.now) }
{
    let mut drivers = Vec::with_capacity(alloc, DRIVERS)?;
    for driver in 0..DRIVERS {
        drivers.push(steps_of(alloc, all, driver as u8)?)?;
    }
    Ok(drivers)
}

// A driver's steps: its submits in their order, and a pause before each whose round is a later one.
#[tactic(auto, unfolding(crate::specs::Steps::steps_of))]
fn steps_of(alloc: Global, all: &[Arrival], driver: u8) -> Result<Vec<Step>, AllocError>
    ensures { IfOk result (λ steps. steps.items ≡ steps_of all.now driver) }
{
    let own = own_arrivals(alloc, all, driver)?;
    let steps = steps_for(alloc, &own)?;
    Ok(steps)
}

fn own_arrivals(alloc: Global, all: &[Arrival], driver: u8) -> Result<Vec<Arrival>, AllocError>
    ensures { IfOk result (λ own. own.items ≡ filter (is_by driver) all.now) }
{
    all.iter()
        .copied()
        .filter(|arrival| arrival.submission.driver == driver)
        .collect(alloc)
}

// The steps of a driver that asked for these.
fn steps_for(alloc: Global, own: &[Arrival]) -> Result<Vec<Step>, AllocError>
    ensures { IfOk result (λ steps. steps.items ≡ steps_for own.now) }
{
    let mut steps = Vec::new(alloc);
    let mut now = 1;
    for arrival in own {
        add_steps(&mut steps, now, arrival)?;
        now = arrival.round;
    }
    Ok(steps)
}

// Adds a pause, if the arrival's round is later than this one, and its submit.
fn add_steps(steps: &mut Vec<Step>, now: u32, arrival: &Arrival) -> Result<(), AllocError>
    ensures { OnOk result (steps.new.items ≡ steps.old.items ++ steps_from now arrival.now) }
{
    if now < arrival.round {
        steps.push(Step::Pause(arrival.round))?;
    }
    steps.push(Step::Act(submit(arrival.submission)))?;
    Ok(())
}

fn submit(submission: Submission) -> Event
    ensures { result ≡ submit submission }
{
    Event::Submit {
        driver: submission.driver,
        device: submission.device,
        priority: submission.priority,
        retries: submission.retries,
        flags: submission.flags,
    }
}
