//! The static causes that refuse a script's record.

ghost use Rattle.std.specs.Prelude.{◌≡◌, ◌<◌, length, not, IfSome, Ok};
ghost use Rattle.sense_class.specs.Classes.{status_of};
ghost use Rattle.trace_file.specs.Scenarios.{device_number, is_at, item_of, refused_if};
ghost use Rattle.record_text.specs.Steps.{◌>>=◌ as and_then};

use crate::script_row::{ScriptItem, ScriptRow};
use crate::step::Step;
use cam_path::CamPath;
use cam_types::{Config, Device, Flags, MAX_PRIORITY, MAX_RETRIES, Outcome, are_openings};
use event_rules::{Event, Refusal, is_count};

/// What a row asks for, or the first static cause that refuses it.
#[tactic(auto, unfolding(crate::specs::Scenarios::item_of))]
pub(crate) fn item_of(config: &Config, row: ScriptRow) -> Result<ScriptItem, Refusal>
    ensures { result ≡ item_of config.now row }
{
    match row {
        ScriptRow::Submit {
            driver,
            path,
            priority,
            retries,
            flags,
        } => submission_of(config, driver, path, priority, retries, flags),
        ScriptRow::Freeze {
            driver,
            path,
            count,
        } => {
            let device = device_if(config, path, is_count(count), Refusal::BadCount)?;
            Ok(ScriptItem::Step(driver, Step::Act(Event::FreezeDev { device, count })))
        }
        ScriptRow::Release {
            driver,
            path,
            count,
        } => {
            let device = device_if(config, path, is_count(count), Refusal::BadCount)?;
            Ok(ScriptItem::Step(driver, Step::Act(Event::ReleaseDev { device, count })))
        }
        ScriptRow::FreezeSim { driver, sim, count } => {
            if !config.names_adapter(sim) {
                Err(Refusal::NoAdapter)
            } else if !is_count(count) {
                Err(Refusal::BadCount)
            } else {
                Ok(ScriptItem::Step(driver, Step::Act(Event::FreezeSim { sim, count })))
            }
        }
        ScriptRow::ReleaseSim { driver, sim } => {
            if config.names_adapter(sim) {
                Ok(ScriptItem::Step(driver, Step::Act(Event::ReleaseSim { sim })))
            } else {
                Err(Refusal::NoAdapter)
            }
        }
        ScriptRow::Adjust {
            driver,
            path,
            openings,
        } => {
            let device = device_if(config, path, are_openings(openings), Refusal::BadOpenings)?;
            Ok(ScriptItem::Step(driver, Step::Act(Event::Adjust { device, openings })))
        }
        ScriptRow::Pause { driver, round } => Ok(ScriptItem::Step(driver, Step::Pause(round))),
        ScriptRow::Answer { lane, outcome } => {
            if !config.names_lane(lane) {
                Err(Refusal::NoLane)
            } else if is_in_progress(&outcome) {
                Err(Refusal::BadStatus)
            } else {
                Ok(ScriptItem::Answer(lane, outcome))
            }
        }
    }
}

#[tactic(auto, unfolding(crate::specs::Scenarios::item_of))]
fn submission_of(
    config: &Config,
    driver: u8,
    path: CamPath,
    priority: u32,
    retries: u32,
    flags: Flags,
) -> Result<ScriptItem, Refusal>
    ensures { result ≡ item_of config.now (ScriptRow.Submit driver path priority retries flags) }
{
    let device = device_at(config, path)?;
    if priority > MAX_PRIORITY {
        return Err(Refusal::BadPriority);
    }
    if retries > MAX_RETRIES {
        return Err(Refusal::BadRetries);
    }
    let event = Event::Submit {
        driver,
        device,
        priority,
        retries,
        flags,
    };
    Ok(ScriptItem::Step(driver, Step::Act(event)))
}

// The device that a path names, where what is asked of it may be asked.
fn device_if(config: &Config, path: CamPath, may: bool, otherwise: Refusal) -> Result<u32, Refusal>
    ensures { result ≡ and_then (ok_or (device_number config.now path) Refusal.NoDevice) (λ d. and_then (refused_if (not may) otherwise) (λ _. Ok d)) }
{
    let device = device_at(config, path)?;
    if may { Ok(device) } else { Err(otherwise) }
}

fn device_at(config: &Config, path: CamPath) -> Result<u32, Refusal>
    ensures { result ≡ ok_or (device_number config.now path) Refusal.NoDevice }
{
    match config
        .devices()
        .iter()
        .position(|device| is_at(path, *device))
    {
        Some(device) => Ok(device as u32),
        None => Err(Refusal::NoDevice),
    }
}

fn is_at(path: CamPath, device: Device) -> bool
    ensures { result ≡ is_at path device }
{
    device.bus == path.bus && device.target == path.target && device.lun == path.lun
}

// Status 00 is no result.
pub(crate) fn is_in_progress(outcome: &Outcome) -> bool
    ensures { result ≡ (status_of outcome.now == 0) }
{
    outcome.status & 0x3f == 0
}

ghost use Rattle.std.specs.Prelude.{◌==◌, ok_or};
