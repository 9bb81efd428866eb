//! The stays of a history, whose rounds are still to be counted.

ghost use Rattle.std.specs.Prelude.{◌≡◌, ◌≤◌, map, length, zip, IfOk};
ghost use Rattle.wait_causes.specs.Words.{MAX_STAYS, device_adapter, submission, Submission};
ghost use Rattle.std.specs.Option.{option_map_or};
ghost use Rattle.wait_causes.specs.Stays.{row_by};

use crate::behind::FullBehind;
use crate::explained_stay::{CauseRounds, ExplainedStay};
use cam_types::Config;
use round_net::{RoundTable, Schedule};
use std::alloc::{AllocError, Global};
use xpt_core::{Devices, StayRecord};

/// The stays of these records, each beside its round of the schedule.
pub(crate) fn list_stays(
    alloc: Global,
    table: &RoundTable,
    records: &[StayRecord],
    best: &Schedule,
) -> Result<Vec<ExplainedStay>, AllocError>
    requires same { length best.now ≡ length records.now }
    requires few { length records.now ≤ MAX_STAYS }
    ensures { IfOk result (λ rows. rows.items ≡ map (row_by table.now.config table.now.events) (zip records.now best.now)) }
{
    let mut rows = Vec::new(alloc);
    for (stay, kept) in records.iter().enumerate() {
        rows.push(explain(table, kept, best.round(stay as u32)))?;
    }
    Ok(rows)
}

// The stay of this record, sent in this round by the schedule.
fn explain(table: &RoundTable, kept: &StayRecord, best: u32) -> ExplainedStay
    ensures { result ≡ row_by table.now.config table.now.events (kept.now, best) }
{
    let devices = table.end().devices();
    let config = devices.config();
    let stay = &kept.stay;
    let live = kept.sent.unwrap_or(devices.round());
    ExplainedStay {
        ccb: stay.ccb,
        attempt: stay.attempt,
        driver: driver_of(devices, stay.ccb),
        device: stay.device,
        adapter: adapter_of(config, stay.device),
        priority: stay.priority.number(),
        level: stay.priority.run_level(),
        weight: config.weight(stay.priority) as u16,
        arrival: stay.arrival,
        live,
        pace: None,
        best,
        last: None,
        done: None,
        rounds: CauseRounds::none(),
        behind: FullBehind::none(),
    }
}

// The driver of the CCB, and 0 where there is no such CCB.
fn driver_of(devices: &Devices, ccb: u32) -> u8
    ensures { result ≡ option_map_or (λ (s : Submission). s.driver) (submission devices.now.events ccb) 0 }
{
    match devices.submission(ccb) {
        Some(submission) => submission.driver,
        None => 0,
    }
}

/// The adapter of the device, and 0 where there is no such device.
pub(crate) fn adapter_of(config: &Config, device: u32) -> u32
    ensures { result ≡ device_adapter config.now device }
{
    match config.device_adapter(device) {
        Some(adapter) => adapter,
        None => 0,
    }
}
