//! Parses the rows that traces alone have: an adapter in a version, and events.

ghost use Rattle.std.specs.Prelude.{◌≡◌, length};
ghost use Rattle.csv.specs.Records.{fields_of};
ghost use Rattle.trace_file.specs.Rows.{adapter_in, submit_at, outcome_at, tick_at, event_at};

use crate::fields::{byte_at, flags_at, sense_at};
use crate::version::Version;
use crate::word::TraceWord;
use cam_types::{Adapter, Outcome};
use csv::ByteRecord;
use event_rules::Event;
use record_text::{adapter_at, number_at, one_number, two_numbers, unused_from};

/// The adapter of a record in this version, or the number of the first field that hasn't its form. Version 3 alone has links.
#[tactic(auto, unfolding(crate::specs::Rows::adapter_in))]
pub(crate) fn adapter_in(version: Version, row: &ByteRecord) -> Result<Adapter, u32>
    requires { length (fields_of row.now) ≡ 8 }
    ensures { result ≡ adapter_in version (fields_of row.now) }
{
    if version.has_links() {
        return adapter_at(row);
    }
    let openings = one_number(row)?;
    Ok(Adapter {
        openings,
        link: None,
    })
}

/// The event of a record with this word, or the number of the first field that hasn't its form.
#[tactic(auto, unfolding(crate::specs::Rows::event_at))]
pub(crate) fn event_at(word: TraceWord, row: &ByteRecord) -> Result<Event, u32>
    requires { length (fields_of row.now) ≡ 8 }
    ensures { result ≡ event_at word (fields_of row.now) }
{
    match word {
        TraceWord::Submit => submit_at(row),
        TraceWord::Send => {
            let (lane, ccb) = two_numbers(row)?;
            Ok(Event::Send { lane, ccb })
        }
        TraceWord::Done => {
            let (ccb, outcome) = outcome_at(row)?;
            Ok(Event::Done { ccb, outcome })
        }
        TraceWord::Requeue => {
            let ccb = one_number(row)?;
            Ok(Event::Requeue { ccb })
        }
        TraceWord::Finish => {
            let ccb = one_number(row)?;
            Ok(Event::Finish { ccb })
        }
        TraceWord::Freeze => {
            let (device, count) = two_numbers(row)?;
            Ok(Event::FreezeDev { device, count })
        }
        TraceWord::Release => {
            let (device, count) = two_numbers(row)?;
            Ok(Event::ReleaseDev { device, count })
        }
        TraceWord::FreezeSim => {
            let (sim, count) = two_numbers(row)?;
            Ok(Event::FreezeSim { sim, count })
        }
        TraceWord::ReleaseSim => {
            let sim = one_number(row)?;
            Ok(Event::ReleaseSim { sim })
        }
        TraceWord::Adjust => {
            let (device, openings) = two_numbers(row)?;
            Ok(Event::Adjust { device, openings })
        }
        TraceWord::Tick => tick_at(row),
        TraceWord::Weight | TraceWord::Link | TraceWord::Sim | TraceWord::Dev | TraceWord::Lane =>
            Err(1),
    }
}

#[tactic(auto, unfolding(crate::specs::Rows::submit_at))]
fn submit_at(row: &ByteRecord) -> Result<Event, u32>
    requires { length (fields_of row.now) ≡ 8 }
    ensures { result ≡ submit_at (fields_of row.now) }
{
    let driver = number_at(row, 1, 255)? as u8;
    let device = number_at(row, 2, u32::MAX)?;
    let priority = number_at(row, 3, u32::MAX)?;
    let retries = number_at(row, 4, u32::MAX)?;
    let flags = flags_at(row, 5)?;
    unused_from(row, 6)?;
    Ok(Event::Submit {
        driver,
        device,
        priority,
        retries,
        flags,
    })
}

/// The number and the outcome of a record, or the number of the first field that hasn't its form.
#[tactic(auto, unfolding(crate::specs::Rows::outcome_at))]
pub(crate) fn outcome_at(row: &ByteRecord) -> Result<(u32, Outcome), u32>
    requires { length (fields_of row.now) ≡ 8 }
    ensures { result ≡ outcome_at (fields_of row.now) }
{
    let number = number_at(row, 1, u32::MAX)?;
    let status = byte_at(row, 2)?;
    let scsi = byte_at(row, 3)?;
    let sense = sense_at(row, 4)?;
    unused_from(row, 5)?;
    Ok((
        number,
        Outcome {
            status,
            scsi,
            sense,
        },
    ))
}

#[tactic(auto, unfolding(crate::specs::Rows::tick_at))]
fn tick_at(row: &ByteRecord) -> Result<Event, u32>
    requires { length (fields_of row.now) ≡ 8 }
    ensures { result ≡ tick_at (fields_of row.now) }
{
    unused_from(row, 1)?;
    Ok(Event::Tick)
}
