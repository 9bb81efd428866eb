//! The stays of a history with their windows.

ghost use Rattle.std.specs.Prelude.{◌≡◌, map, IfOk};
ghost use Rattle.round_net.specs.Words.{Adapter, Device};
ghost use Rattle.round_net.specs.Nets.{row_of};

use crate::stay_row::StayRow;
use cam_types::{Adapter, Config, Device};
use event_rules::Stay;
use std::alloc::{AllocError, Global};
use xpt_core::StayRecord;

/// The rows of these stays of a history of that many rounds.
pub fn stay_rows(
    alloc: Global,
    config: &Config,
    records: &[StayRecord],
    rounds: u32,
) -> Result<Vec<StayRow>, AllocError>
    ensures { IfOk result (λ rows. rows.items ≡ map (row_of config.now rounds) records.now) }
{
    records
        .iter()
        .map(|record| stay_row(config, record, rounds))
        .collect(alloc)
}

// The last round of a stay is the one before its CCB's next stay arrives, or else the last of all; a stay without a send
// counts as sent in the last.
fn stay_row(config: &Config, kept: &StayRecord, rounds: u32) -> StayRow
    ensures { result ≡ row_of config.now rounds kept.now }
{
    let stay = &kept.stay;
    StayRow {
        stay: Stay {
            ccb: stay.ccb,
            attempt: stay.attempt,
        },
        device: stay.device,
        arrival: stay.arrival,
        last: match kept.next_arrival {
            Some(arrival) => arrival.saturating_sub(1),
            None => rounds,
        },
        weight: config.weight(stay.priority),
        live: kept.sent.unwrap_or(rounds),
    }
}

/// The adapter of each device.
pub fn adapters_of(alloc: Global, devices: &[Device]) -> Result<Vec<u32>, AllocError>
    ensures { IfOk result (λ adapters. adapters.items ≡ map (λ (device : Device). device.bus) devices.now) }
{
    devices
        .iter()
        .map(|device| u32::from(device.bus))
        .collect(alloc)
}

/// The link of each adapter, if it is on one.
pub fn links_of(alloc: Global, adapters: &[Adapter]) -> Result<Vec<Option<u32>>, AllocError>
    ensures { IfOk result (λ links. links.items ≡ map (λ (adapter : Adapter). adapter.link) adapters.now) }
{
    adapters.iter().map(|adapter| adapter.link).collect(alloc)
}
