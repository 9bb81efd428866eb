//! Writes the records of a script's limits, steps and answers.

ghost use Rattle.std.specs.Prelude.{◌≡◌, ◌≤◌, ◌<◌, ◌∷◌, ◌++◌, ℕ, [], true, decimal, get_or, length, map, IsTrue, OnOk};
ghost use Rattle.std.specs.List.{AllByRecursion};
ghost use Rattle.cam_types.specs.Bounds.{are_within};
ghost use Rattle.cam_types.specs.Questions.{names_device};
ghost use Rattle.cam_path.specs.Paths.{spelled as path_spelled, Fits};
ghost use Rattle.trace_file.specs.Fields.{flags_text};
ghost use Rattle.record_text.specs.ConfigRows.{padded};
ghost use Rattle.record_text.specs.Fields.{max_number};
ghost use Rattle.trace_file.specs.Scenarios.{is_ruled, names_driver};
ghost use Rattle.trace_file.specs.Script.{FitsRow};
ghost use Rattle.trace_file.specs.ScriptRows.{limits_row, script_row};
ghost use Rattle.trace_file.specs.ScriptWriting.{numbered, path_of, step_row};
ghost use Rattle.record_text.specs.Writing.{IsBetween, Wrote};
ghost use Rattle.trace_file.specs.declared.step.Step.TheVariants as Step;

use crate::script::DRIVERS;
use crate::script_row::ScriptRow;
use crate::step::Step;
use crate::writing::{flags_text, write_outcome};
use cam_path::CamPath;
use cam_types::{Config, Flags, Limits, Outcome};
use csv::Writer;
use event_rules::Event;
use itoa::Buffer;
use record_text::{write_row, write_three, write_two};
use std::alloc::{AllocError, Global};

/// Writes the record of the limits.
pub(crate) fn write_limits(writer: &mut Writer<Vec<u8>>, limits: Limits) -> Result<(), AllocError>
    requires { IsBetween writer.old }
    ensures rows { OnOk result (Wrote writer.old writer.new (limits_row limits ∷ [])) }
    ensures within { are_within limits ≡ true }
{
    let mut one = Buffer::new();
    let mut two = Buffer::new();
    let mut three = Buffer::new();
    let mut four = Buffer::new();
    let ccbs = one.format(limits.ccbs()).as_bytes();
    let rounds = two.format(limits.rounds()).as_bytes();
    let stays = three.format(limits.stays()).as_bytes();
    let events = four.format(limits.events()).as_bytes();
    write_row(
        writer,
        &[b"limits", ccbs, rounds, stays, events, b"", b"", b""],
    )
}

/// Writes a record for each step of each of the 8 drivers, driver by driver.
pub(crate) fn write_drivers(
    alloc: Global,
    writer: &mut Writer<Vec<u8>>,
    config: &Config,
    drivers: &[Vec<Step>],
) -> Result<(), AllocError>
    requires between { IsBetween writer.old }
    requires eight { length drivers.now ≡ 8 }
    requires ruled { (driver : ℕ) → AllByRecursion (λ one. is_ruled config.now driver one ≡ true) (get_or (map (λ l. l.items) drivers.now) driver []) }
    ensures rows { OnOk result (Wrote writer.old writer.new (map script_row (numbered (step_row config.now) 0 (map (λ l. l.items) drivers.now)))) }
    ensures fits { OnOk result (AllByRecursion FitsRow (numbered (step_row config.now) 0 (map (λ l. l.items) drivers.now))) }
{
    for driver in 0..DRIVERS {
        write_steps(alloc, writer, config, driver as u8, &drivers[driver])?;
    }
    Ok(())
}

// Writes a record for each step of a driver.
fn write_steps(
    alloc: Global,
    writer: &mut Writer<Vec<u8>>,
    config: &Config,
    driver: u8,
    steps: &[Step],
) -> Result<(), AllocError>
    requires between { IsBetween writer.old }
    requires driver { driver ≤ 7 }
    requires ruled { AllByRecursion (λ one. is_ruled config.now driver one ≡ true) steps.now }
    ensures rows { OnOk result (Wrote writer.old writer.new (map script_row (map (step_row config.now driver) steps.now))) }
    ensures fits { OnOk result (AllByRecursion FitsRow (map (step_row config.now driver) steps.now)) }
{
    for step in steps {
        let row = step_row(config, driver, *step);
        write_script_row(alloc, writer, row)?;
    }
    Ok(())
}

/// Writes a record for each answer of each lane, lane by lane.
pub(crate) fn write_answers(
    alloc: Global,
    writer: &mut Writer<Vec<u8>>,
    answers: &[Vec<Outcome>],
) -> Result<(), AllocError>
    requires between { IsBetween writer.old }
    requires few { length answers.now ≤ max_number }
    ensures rows { OnOk result (Wrote writer.old writer.new (map script_row (numbered ScriptRow.Answer 0 (map (λ l. l.items) answers.now)))) }
    ensures fits { OnOk result (AllByRecursion FitsRow (numbered ScriptRow.Answer 0 (map (λ l. l.items) answers.now))) }
{
    for lane in 0..answers.len() {
        write_outcomes(alloc, writer, lane as u32, &answers[lane])?;
    }
    Ok(())
}

// Writes a record for each answer of a lane.
fn write_outcomes(
    alloc: Global,
    writer: &mut Writer<Vec<u8>>,
    lane: u32,
    outcomes: &[Outcome],
) -> Result<(), AllocError>
    requires { IsBetween writer.old }
    ensures rows { OnOk result (Wrote writer.old writer.new (map script_row (map (ScriptRow.Answer lane) outcomes.now))) }
    ensures fits { OnOk result (AllByRecursion FitsRow (map (ScriptRow.Answer lane) outcomes.now)) }
{
    for outcome in outcomes {
        let row = ScriptRow::Answer {
            lane,
            outcome: *outcome,
        };
        write_script_row(alloc, writer, row)?;
    }
    Ok(())
}

// The row of a step that this driver may ask for.
fn step_row(config: &Config, driver: u8, step: Step) -> ScriptRow
    requires { is_ruled config.now driver step ≡ true }
    ensures row { result ≡ step_row config.now driver step }
    ensures driver { driver ≤ 7 → IsTrue (names_driver result) }
{
    match step {
        Step::Act(event) => event_row(config, driver, event),
        Step::Pause(round) => ScriptRow::Pause { driver, round },
    }
}

fn event_row(config: &Config, driver: u8, event: Event) -> ScriptRow
    requires { is_ruled config.now driver (Step.Act event) ≡ true }
    ensures row { result ≡ step_row config.now driver (Step.Act event) }
    ensures driver { driver ≤ 7 → IsTrue (names_driver result) }
{
    match event {
        Event::Submit {
            device,
            priority,
            retries,
            flags,
            ..
        } => ScriptRow::Submit {
            driver,
            path: device_path(config, device),
            priority,
            retries,
            flags,
        },
        Event::FreezeDev { device, count } => ScriptRow::Freeze {
            driver,
            path: device_path(config, device),
            count,
        },
        Event::ReleaseDev { device, count } => ScriptRow::Release {
            driver,
            path: device_path(config, device),
            count,
        },
        Event::FreezeSim { sim, count } => ScriptRow::FreezeSim { driver, sim, count },
        Event::ReleaseSim { sim } => ScriptRow::ReleaseSim { driver, sim },
        Event::Adjust { device, openings } => ScriptRow::Adjust {
            driver,
            path: device_path(config, device),
            openings,
        },
        _ => unreachable!(),
    }
}

fn device_path(config: &Config, device: u32) -> CamPath
    requires { IsTrue (names_device config.now device) }
    ensures { result ≡ path_of config.now device }
{
    CamPath::of(&config.devices()[device as usize])
}

// Writes the record of a row.
fn write_script_row(
    alloc: Global,
    writer: &mut Writer<Vec<u8>>,
    row: ScriptRow,
) -> Result<(), AllocError>
    requires between { IsBetween writer.old }
    requires driver { IsTrue (names_driver row) }
    ensures rows { OnOk result (Wrote writer.old writer.new (script_row row ∷ [])) }
    ensures fits { FitsRow row }
{
    match row {
        ScriptRow::Submit {
            driver,
            path,
            priority,
            retries,
            flags,
        } => write_submission(alloc, writer, driver, path, priority, retries, flags),
        ScriptRow::Freeze {
            driver,
            path,
            count,
        } => write_by_path(alloc, writer, b"freeze", driver, path, count),
        ScriptRow::Release {
            driver,
            path,
            count,
        } => write_by_path(alloc, writer, b"release", driver, path, count),
        ScriptRow::FreezeSim { driver, sim, count } => {
            write_three(writer, b"sfreeze", u32::from(driver), sim, count)
        }
        ScriptRow::ReleaseSim { driver, sim } => {
            write_two(writer, b"srelease", u32::from(driver), sim)
        }
        ScriptRow::Adjust {
            driver,
            path,
            openings,
        } => write_by_path(alloc, writer, b"adjust", driver, path, openings),
        ScriptRow::Pause { driver, round } => {
            write_two(writer, b"pause", u32::from(driver), round)
        }
        ScriptRow::Answer { lane, outcome } => write_outcome(writer, b"answer", lane, outcome),
    }
}

fn write_submission(
    alloc: Global,
    writer: &mut Writer<Vec<u8>>,
    driver: u8,
    path: CamPath,
    priority: u32,
    retries: u32,
    flags: Flags,
) -> Result<(), AllocError>
    requires { IsBetween writer.old }
    ensures rows { OnOk result (Wrote writer.old writer.new (script_row (ScriptRow.Submit driver path priority retries flags) ∷ [])) }
    ensures fits { Fits path }
{
    let mut text = Vec::new(alloc);
    path.write(&mut text)?;
    let mut one = Buffer::new();
    let mut two = Buffer::new();
    let mut three = Buffer::new();
    let driver = one.format(driver).as_bytes();
    let priority = two.format(priority).as_bytes();
    let retries = three.format(retries).as_bytes();
    let flags = flags_text(flags);
    write_row(
        writer,
        &[b"submit", driver, &text, priority, retries, flags, b"", b""],
    )
}

// Writes a record of a word, a driver, a path and a number.
fn write_by_path(
    alloc: Global,
    writer: &mut Writer<Vec<u8>>,
    word: &[u8],
    driver: u8,
    path: CamPath,
    number: u32,
) -> Result<(), AllocError>
    requires { IsBetween writer.old }
    ensures rows { OnOk result (Wrote writer.old writer.new (padded (word.now ∷ decimal driver ∷ path_spelled path ∷ decimal number ∷ []) ∷ [])) }
    ensures fits { Fits path }
{
    let mut text = Vec::new(alloc);
    path.write(&mut text)?;
    let mut one = Buffer::new();
    let mut two = Buffer::new();
    let driver = one.format(driver).as_bytes();
    let number = two.format(number).as_bytes();
    write_row(writer, &[word, driver, &text, number, b"", b"", b"", b""])
}
