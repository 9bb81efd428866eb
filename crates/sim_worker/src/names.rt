//! The actors of a run.

ghost use Rattle.std.specs.Prelude.{◌≡◌, ◌++◌, [], IfOk, length, map, true, false};
ghost use Rattle.xpt_lock.specs.Seats.{Held};
ghost use Rattle.sim_worker.specs.LiveRuns.{actors, drivers, is_some_row, lanes, rows};

use crate::log::SeatLog;
use crate::run_replay::rows;
use std::alloc::{AllocError, Global};
use trace_file::Script;
use xpt_lock::SeatName;

/// The actors of a script's run on many threads, in order: the drivers that have a row, by number; the lanes, by number;
/// recovery; the round keeper.
pub fn actors(alloc: Global, script: &Script) -> Result<Vec<SeatName>, AllocError>
    ensures { IfOk result (λ names. names.items ≡ actors script.now) }
{
    let mut names = Vec::new(alloc);
    add_drivers(script, &mut names)?;
    add_lanes(script, &mut names)?;
    names.push(SeatName::Recovery)?;
    names.push(SeatName::Keeper)?;
    Ok(names)
}

fn add_drivers(script: &Script, names: &mut Vec<SeatName>) -> Result<(), AllocError>
    requires { names.old.items ≡ [] }
    ensures { IfOk result (λ _. names.new.items ≡ drivers script.now 8) }
{
    for driver in 0..8u8 {
        if !has_row(script, driver) {
            continue;
        }
        names.push(SeatName::Driver(driver))?;
    }
    Ok(())
}

fn has_row(script: &Script, driver: u8) -> bool
    ensures { result ≡ is_some_row (rows script.now driver) }
{
    !rows(script, driver).is_empty()
}

fn add_lanes(script: &Script, names: &mut Vec<SeatName>) -> Result<(), AllocError>
    ensures { IfOk result (λ _. names.new.items ≡ names.old.items ++ lanes (length script.now.config.lanes)) }
{
    for lane in 0..script.config().lanes().len() as u32 {
        names.push(SeatName::Lane(lane))?;
    }
    Ok(())
}

/// Whether the logs are those of the names, in their order.
pub(crate) fn are_named(names: &[SeatName], logs: &[SeatLog]) -> bool
    ensures yes { result ≡ true → map (λ (log : Held). log.name) logs.now ≡ names.now }
    ensures no { result ≡ false → map (λ (log : Held). log.name) logs.now ≡ names.now → ⊥ }
{
    if names.len() != logs.len() {
        return false;
    }
    for i in 0..names.len() {
        let log = &logs[i];
        if log.name != names[i] {
            return false;
        }
    }
    true
}
