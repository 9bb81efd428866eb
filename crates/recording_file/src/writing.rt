//! Writes the records of a recording.

ghost use Rattle.std.specs.Prelude.{◌≡◌, ◌≤◌, ◌∷◌, ◌++◌, [], codes, decimal, map, IfSome, OnOk};
ghost use Rattle.std.specs.List.{AllByRecursion};
ghost use Rattle.cam_types.specs.declared.device.Device.{Device};
ghost use Rattle.recording_file.specs.Names.{NameValue};
ghost use Rattle.recording_file.specs.Recorded.{FitsFields, Span};
ghost use Rattle.recording_file.specs.Records.{unit_rows, unit_row, name_row, cap_row, request_row};
ghost use Rattle.record_text.specs.ConfigRows.{padded, weight_row, link_row, adapter_row, device_row, optional_text};
ghost use Rattle.recording_file.specs.Words.{time_text, named_text, part_text};
ghost use Rattle.record_text.specs.Writing.{IsBetween, Wrote};

use crate::cap::Cap;
use crate::name::{Name, NameKind};
use crate::part::PartKind;
use crate::request::Request;
use crate::span::{Span, TimeUnit};
use csv::Writer;
use itoa::Buffer;
use record_text::write_row;
use std::alloc::AllocError;

/// Writes how long a round is, if that is known.
pub(crate) fn write_unit(writer: &mut Writer<Vec<u8>>, unit: Option<Span>) -> Result<(), AllocError>
    requires { IsBetween writer.old }
    ensures rows { OnOk result (Wrote writer.old writer.new (unit_rows unit)) }
    ensures fits { IfSome unit (λ (u : Span). u.count ≤ 4294967295) }
{
    match unit {
        Some(unit) => write_span(writer, unit),
        None => Ok(()),
    }
}

fn write_span(writer: &mut Writer<Vec<u8>>, unit: Span) -> Result<(), AllocError>
    requires { IsBetween writer.old }
    ensures rows { OnOk result (Wrote writer.old writer.new (unit_row unit ∷ [])) }
    ensures fits { unit.count ≤ 4294967295 }
{
    let mut digits = Buffer::new();
    let count = digits.format(unit.count).as_bytes();
    let word = time_text(unit.unit);
    write_row(writer, &[b"unit", count, word, b"", b"", b"", b"", b""])
}

fn time_text(unit: TimeUnit) -> &'static [u8]
    ensures { result.now ≡ time_text unit }
{
    match unit {
        TimeUnit::Nanosecond => b"ns",
        TimeUnit::Microsecond => b"us",
        TimeUnit::Millisecond => b"ms",
        TimeUnit::Second => b"s",
    }
}

/// Writes a record for each name.
pub(crate) fn write_names(writer: &mut Writer<Vec<u8>>, names: &[Name]) -> Result<(), AllocError>
    requires { IsBetween writer.old }
    ensures { OnOk result (Wrote writer.old writer.new (map name_row names.now)) }
{
    for name in names {
        write_name(writer, name)?;
    }
    Ok(())
}

fn write_name(writer: &mut Writer<Vec<u8>>, name: &Name) -> Result<(), AllocError>
    requires { IsBetween writer.old }
    ensures { OnOk result (Wrote writer.old writer.new (name_row name.now ∷ [])) }
{
    let kind = named_text(name.kind());
    write_named(writer, kind, name.number(), name.text().as_bytes())
}

fn write_named<'a>(
    writer: &mut Writer<Vec<u8>>,
    kind: &'a [u8],
    number: u32,
    text: &'a [u8],
) -> Result<(), AllocError>
    requires { IsBetween writer.old }
    ensures { OnOk result (Wrote writer.old writer.new (padded (codes "name" ∷ kind.now ∷ decimal number ∷ text.now ∷ []) ∷ [])) }
{
    let mut digits = Buffer::new();
    let number = digits.format(number).as_bytes();
    write_row(writer, &[b"name", kind, number, text, b"", b"", b"", b""])
}

fn named_text(kind: NameKind) -> &'static [u8]
    ensures { result.now ≡ named_text kind }
{
    match kind {
        NameKind::Driver => b"driver",
        NameKind::Device => b"dev",
        NameKind::Adapter => b"sim",
        NameKind::Link => b"link",
    }
}

/// Writes a record for each cap.
pub(crate) fn write_caps(writer: &mut Writer<Vec<u8>>, caps: &[Cap]) -> Result<(), AllocError>
    requires { IsBetween writer.old }
    ensures { OnOk result (Wrote writer.old writer.new (map cap_row caps.now)) }
{
    for cap in caps {
        write_cap(writer, *cap)?;
    }
    Ok(())
}

fn write_cap(writer: &mut Writer<Vec<u8>>, cap: Cap) -> Result<(), AllocError>
    requires { IsBetween writer.old }
    ensures { OnOk result (Wrote writer.old writer.new (cap_row cap ∷ [])) }
{
    let mut number = Buffer::new();
    let mut first = Buffer::new();
    let mut last = Buffer::new();
    let mut most = Buffer::new();
    let kind = part_text(cap.part.kind);
    let number = number.format(cap.part.number).as_bytes();
    let first = first.format(cap.first).as_bytes();
    let last = last.format(cap.last).as_bytes();
    let most = most.format(cap.most).as_bytes();
    write_row(writer, &[b"cap", kind, number, first, last, most, b"", b""])
}

fn part_text(kind: PartKind) -> &'static [u8]
    ensures { result.now ≡ part_text kind }
{
    match kind {
        PartKind::Device => b"dev",
        PartKind::Adapter => b"sim",
        PartKind::Link => b"link",
    }
}

/// Writes a record for each request.
pub(crate) fn write_requests(
    writer: &mut Writer<Vec<u8>>,
    requests: &[Request],
) -> Result<(), AllocError>
    requires { IsBetween writer.old }
    ensures rows { OnOk result (Wrote writer.old writer.new (map request_row requests.now)) }
    ensures fits { OnOk result (AllByRecursion FitsFields requests.now) }
{
    for request in requests {
        write_request(writer, *request)?;
    }
    Ok(())
}

fn write_request(writer: &mut Writer<Vec<u8>>, request: Request) -> Result<(), AllocError>
    requires { IsBetween writer.old }
    ensures rows { OnOk result (Wrote writer.old writer.new (request_row request ∷ [])) }
    ensures fits { FitsFields request }
{
    let mut driver = Buffer::new();
    let mut device = Buffer::new();
    let mut priority = Buffer::new();
    let mut arrival = Buffer::new();
    let mut last = Buffer::new();
    let mut sent = Buffer::new();
    let mut done = Buffer::new();
    let driver = driver.format(request.driver).as_bytes();
    let device = device.format(request.device).as_bytes();
    let priority = priority.format(request.priority).as_bytes();
    let arrival = arrival.format(request.arrival).as_bytes();
    let last = optional_text(&mut last, request.last);
    let sent = sent.format(request.sent).as_bytes();
    let done = optional_text(&mut done, request.done);
    write_row(
        writer,
        &[
            b"request", driver, device, priority, arrival, last, sent, done,
        ],
    )
}

// A number in decimal, or no byte.
fn optional_text(digits: &mut Buffer, number: Option<u32>) -> &[u8]
    ensures { result.now ≡ optional_text number }
{
    match number {
        Some(number) => digits.format(number).as_bytes(),
        None => b"",
    }
}
