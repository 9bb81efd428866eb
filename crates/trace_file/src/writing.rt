//! Writes the records of a configuration and of events.

ghost use Rattle.std.specs.Prelude.{◌≡◌, ◌≤◌, ◌∷◌, ◌++◌, [], decimal, map, OnOk};
ghost use Rattle.std.specs.List.{AllByRecursion};
ghost use Rattle.cam_types.specs.Topology.{IsConfig};
ghost use Rattle.trace_file.specs.Histories.{Device};
ghost use Rattle.trace_file.specs.Records.{weight_rows, event_row, hex};
ghost use Rattle.record_text.specs.ConfigRows.{lane_row, padded, weight_row, link_row, adapter_row, device_row};
ghost use Rattle.trace_file.specs.Fields.{flags_text};
ghost use Rattle.trace_file.specs.Trace.{FitsEvent, FitsOutcome};
ghost use Rattle.record_text.specs.Writing.{IsBetween, Wrote};

use crate::hex::hex_text;
use crate::version::Version;
use cam_types::{Config, Flags, Outcome, WeightRow};
use csv::Writer;
use event_rules::Event;
use itoa::Buffer;
use record_text::{
    write_adapters, write_devices, write_links, write_one, write_row, write_two, write_weights,
    write_word,
};
use std::alloc::AllocError;

/// Writes the records of a configuration in a version.
pub(crate) fn write_config(
    writer: &mut Writer<Vec<u8>>,
    version: Version,
    config: &Config,
) -> Result<(), AllocError>
    requires { IsBetween writer.old }
    ensures rows { OnOk result (Wrote writer.old writer.new (weight_rows version config.now.weights ++ (map link_row config.now.links ++ (map adapter_row config.now.adapters ++ (map device_row config.now.devices ++ map lane_row config.now.lanes))))) }
    ensures fits { OnOk result (AllByRecursion (λ (d : Device). d.target ≤ 65535) config.now.devices) }
    ensures kept { OnOk result (IsConfig config.now) }
{
    write_table(writer, version, config.weights())?;
    write_links(writer, config.links())?;
    write_adapters(writer, config.adapters())?;
    write_devices(writer, config.devices())?;
    write_numbers(writer, b"lane", config.lanes())
}

// Writes a record of a word and a number for each of these numbers.
fn write_numbers(
    writer: &mut Writer<Vec<u8>>,
    word: &[u8],
    numbers: &[u32],
) -> Result<(), AllocError>
    requires { IsBetween writer.old }
    ensures { OnOk result (Wrote writer.old writer.new (map (λ n. padded (word.now ∷ decimal n ∷ [])) numbers.now)) }
{
    for number in numbers {
        write_one(writer, word, *number)?;
    }
    Ok(())
}

// Writes a record for each row of the table of weights, where this version has them.
fn write_table(
    writer: &mut Writer<Vec<u8>>,
    version: Version,
    weights: &[WeightRow],
) -> Result<(), AllocError>
    requires { IsBetween writer.old }
    ensures { OnOk result (Wrote writer.old writer.new (weight_rows version weights.now)) }
{
    if version.has_table() {
        write_weights(writer, weights)
    } else {
        Ok(())
    }
}

/// Writes a record for each of these events.
pub(crate) fn write_events(writer: &mut Writer<Vec<u8>>, events: &[Event]) -> Result<(), AllocError>
    requires { IsBetween writer.old }
    ensures rows { OnOk result (Wrote writer.old writer.new (map event_row events.now)) }
    ensures fits { OnOk result (AllByRecursion FitsEvent events.now) }
{
    for event in events {
        write_event(writer, *event)?;
    }
    Ok(())
}

fn write_event(writer: &mut Writer<Vec<u8>>, event: Event) -> Result<(), AllocError>
    requires { IsBetween writer.old }
    ensures rows { OnOk result (Wrote writer.old writer.new (event_row event ∷ [])) }
    ensures fits { FitsEvent event }
{
    match event {
        Event::Submit {
            driver,
            device,
            priority,
            retries,
            flags,
        } => write_submit(writer, driver, device, priority, retries, flags),
        Event::Send { lane, ccb } => write_two(writer, b"send", lane, ccb),
        Event::Done { ccb, outcome } => write_outcome(writer, b"done", ccb, outcome),
        Event::Requeue { ccb } => write_one(writer, b"requeue", ccb),
        Event::Finish { ccb } => write_one(writer, b"finish", ccb),
        Event::FreezeDev { device, count } => write_two(writer, b"freeze", device, count),
        Event::ReleaseDev { device, count } => write_two(writer, b"release", device, count),
        Event::FreezeSim { sim, count } => write_two(writer, b"sfreeze", sim, count),
        Event::ReleaseSim { sim } => write_one(writer, b"srelease", sim),
        Event::Adjust { device, openings } => write_two(writer, b"adjust", device, openings),
        Event::Tick => write_word(writer, b"tick"),
    }
}

fn write_submit(
    writer: &mut Writer<Vec<u8>>,
    driver: u8,
    device: u32,
    priority: u32,
    retries: u32,
    flags: Flags,
) -> Result<(), AllocError>
    requires { IsBetween writer.old }
    ensures { OnOk result (Wrote writer.old writer.new (event_row (Event.Submit driver device priority retries flags) ∷ [])) }
{
    let mut one = Buffer::new();
    let mut two = Buffer::new();
    let mut three = Buffer::new();
    let mut four = Buffer::new();
    let driver = one.format(driver).as_bytes();
    let device = two.format(device).as_bytes();
    let priority = three.format(priority).as_bytes();
    let retries = four.format(retries).as_bytes();
    let flags = flags_text(flags);
    write_row(
        writer,
        &[
            b"submit", driver, device, priority, retries, flags, b"", b"",
        ],
    )
}

/// Writes a record of a word, a number and an outcome.
pub(crate) fn write_outcome(
    writer: &mut Writer<Vec<u8>>,
    word: &[u8],
    number: u32,
    outcome: Outcome,
) -> Result<(), AllocError>
    requires { IsBetween writer.old }
    ensures rows { OnOk result (Wrote writer.old writer.new (padded (word.now ∷ decimal number ∷ hex (outcome.status ∷ []) ∷ hex (outcome.scsi ∷ []) ∷ hex outcome.sense ∷ []) ∷ [])) }
    ensures fits { FitsOutcome number outcome }
{
    let mut digits = Buffer::new();
    let number = digits.format(number).as_bytes();
    let (status, _) = hex_text(&[outcome.status]);
    let (scsi, _) = hex_text(&[outcome.scsi]);
    let (sense, count) = hex_text(outcome.sense.bytes());
    write_row(
        writer,
        &[
            word,
            number,
            &status[..2],
            &scsi[..2],
            &sense[..count],
            b"",
            b"",
            b"",
        ],
    )
}

/// How flags are spelled.
pub(crate) fn flags_text(flags: Flags) -> &'static [u8]
    ensures { result.now ≡ flags_text flags }
{
    match (flags.qfreeze, flags.qfrzdis) {
        (false, false) => b"none",
        (true, false) => b"qfreeze",
        (false, true) => b"qfrzdis",
        (true, true) => b"both",
    }
}
