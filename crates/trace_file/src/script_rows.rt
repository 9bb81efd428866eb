//! Reads a record of a script: its limits, its step or its answer.

ghost use Rattle.std.specs.Prelude.{◌≡◌, ◌<◌, ◌≤◌, false, length, IfOk, IsTrue};
ghost use Rattle.csv.specs.Records.{fields_of};
ghost use Rattle.trace_file.specs.ScriptRows.{limit_at, limits_at, path_at, driver_at, by_path_at, by_number_at, submission_at, adapter_freeze_at, script_row_at};
ghost use Rattle.trace_file.specs.Scenarios.{is_answer_row, is_answer_word, names_driver};

use crate::fields::flags_at;
use crate::rows::outcome_at;
use crate::script_row::ScriptRow;
use crate::script_word::ScriptWord;
use cam_path::CamPath;
use cam_types::{Limits, MAX_CCBS, MAX_EVENTS, MAX_ROUNDS, MAX_STAYS};
use csv::ByteRecord;
use record_text::{field, number_at, unused_from};

/// The limits of a record, or the number of the first field that hasn't its form.
#[tactic(auto, unfolding(crate::specs::ScriptRows::limits_at))]
pub(crate) fn limits_at(row: &ByteRecord) -> Result<Limits, u32>
    requires { length (fields_of row.now) ≡ 8 }
    ensures { result ≡ limits_at (fields_of row.now) }
{
    let ccbs = limit_at(row, 1, MAX_CCBS)?;
    let rounds = limit_at(row, 2, MAX_ROUNDS)?;
    let stays = limit_at(row, 3, MAX_STAYS)?;
    let events = limit_at(row, 4, MAX_EVENTS)?;
    unused_from(row, 5)?;
    Ok(Limits::new(ccbs, rounds, stays, events).unwrap())
}

#[tactic(auto, unfolding(crate::specs::ScriptRows::limit_at))]
fn limit_at(row: &ByteRecord, at: u32, most: u32) -> Result<u32, u32>
    requires { at < 8 }
    ensures value { result ≡ limit_at (fields_of row.now) at most }
    ensures within { IfOk result (λ n. (1 ≤ n) × (n ≤ most)) }
{
    let limit = number_at(row, at, most)?;
    if 1 <= limit { Ok(limit) } else { Err(at + 1) }
}

#[tactic(auto, unfolding(crate::specs::ScriptRows::path_at))]
fn path_at(row: &ByteRecord, at: u32) -> Result<CamPath, u32>
    requires { at < 8 }
    ensures { result ≡ path_at (fields_of row.now) at }
{
    match CamPath::read(field(row, at)) {
        Ok(path) => Ok(path),
        Err(_) => Err(at + 1),
    }
}

#[tactic(auto, unfolding(crate::specs::ScriptRows::driver_at))]
fn driver_at(row: &ByteRecord) -> Result<u8, u32>
    ensures value { result ≡ driver_at (fields_of row.now) }
    ensures within { IfOk result (λ n. n ≤ 7) }
{
    let driver = number_at(row, 1, 7)?;
    Ok(driver as u8)
}

#[tactic(auto, unfolding(crate::specs::ScriptRows::by_path_at))]
fn by_path_at(row: &ByteRecord) -> Result<(u8, CamPath, u32), u32>
    requires { length (fields_of row.now) ≡ 8 }
    ensures value { result ≡ by_path_at (fields_of row.now) }
    ensures driver { IfOk result (λ r. r.0 ≤ 7) }
{
    let driver = driver_at(row)?;
    let path = path_at(row, 2)?;
    let number = number_at(row, 3, u32::MAX)?;
    unused_from(row, 4)?;
    Ok((driver, path, number))
}

#[tactic(auto, unfolding(crate::specs::ScriptRows::by_number_at))]
fn by_number_at(row: &ByteRecord) -> Result<(u8, u32), u32>
    requires { length (fields_of row.now) ≡ 8 }
    ensures value { result ≡ by_number_at (fields_of row.now) }
    ensures driver { IfOk result (λ r. r.0 ≤ 7) }
{
    let driver = driver_at(row)?;
    let number = number_at(row, 2, u32::MAX)?;
    unused_from(row, 3)?;
    Ok((driver, number))
}

#[tactic(auto, unfolding(crate::specs::ScriptRows::submission_at))]
fn submission_at(row: &ByteRecord) -> Result<ScriptRow, u32>
    requires { length (fields_of row.now) ≡ 8 }
    ensures value { result ≡ submission_at (fields_of row.now) }
    ensures driver { IfOk result (λ r. IsTrue (names_driver r)) }
    ensures kind { IfOk result (λ r. is_answer_row r ≡ false) }
{
    let driver = driver_at(row)?;
    let path = path_at(row, 2)?;
    let priority = number_at(row, 3, u32::MAX)?;
    let retries = number_at(row, 4, u32::MAX)?;
    let flags = flags_at(row, 5)?;
    unused_from(row, 6)?;
    Ok(ScriptRow::Submit {
        driver,
        path,
        priority,
        retries,
        flags,
    })
}

#[tactic(auto, unfolding(crate::specs::ScriptRows::adapter_freeze_at))]
fn adapter_freeze_at(row: &ByteRecord) -> Result<ScriptRow, u32>
    requires { length (fields_of row.now) ≡ 8 }
    ensures value { result ≡ adapter_freeze_at (fields_of row.now) }
    ensures driver { IfOk result (λ r. IsTrue (names_driver r)) }
    ensures kind { IfOk result (λ r. is_answer_row r ≡ false) }
{
    let driver = driver_at(row)?;
    let sim = number_at(row, 2, u32::MAX)?;
    let count = number_at(row, 3, u32::MAX)?;
    unused_from(row, 4)?;
    Ok(ScriptRow::FreezeSim { driver, sim, count })
}

/// What a record with this word says, or the number of the first field that hasn't its form.
#[tactic(auto, unfolding(crate::specs::ScriptRows::script_row_at))]
pub(crate) fn script_row_at(word: ScriptWord, row: &ByteRecord) -> Result<ScriptRow, u32>
    requires { length (fields_of row.now) ≡ 8 }
    ensures value { result ≡ script_row_at word (fields_of row.now) }
    ensures driver { IfOk result (λ r. IsTrue (names_driver r)) }
    ensures kind { IfOk result (λ r. is_answer_row r ≡ is_answer_word word) }
{
    match word {
        ScriptWord::Submit => submission_at(row),
        ScriptWord::Freeze => {
            let (driver, path, count) = by_path_at(row)?;
            Ok(ScriptRow::Freeze {
                driver,
                path,
                count,
            })
        }
        ScriptWord::Release => {
            let (driver, path, count) = by_path_at(row)?;
            Ok(ScriptRow::Release {
                driver,
                path,
                count,
            })
        }
        ScriptWord::FreezeSim => adapter_freeze_at(row),
        ScriptWord::ReleaseSim => {
            let (driver, sim) = by_number_at(row)?;
            Ok(ScriptRow::ReleaseSim { driver, sim })
        }
        ScriptWord::Adjust => {
            let (driver, path, openings) = by_path_at(row)?;
            Ok(ScriptRow::Adjust {
                driver,
                path,
                openings,
            })
        }
        ScriptWord::Pause => {
            let (driver, round) = by_number_at(row)?;
            Ok(ScriptRow::Pause { driver, round })
        }
        ScriptWord::Answer => {
            let (lane, outcome) = outcome_at(row)?;
            Ok(ScriptRow::Answer { lane, outcome })
        }
    }
}
