//! What helps to find the fault of a trace, a recording or a script.

ghost use Rattle.std.specs.Prelude.{◌≡◌, IfSome, find};
ghost use Rattle.views.specs.Beginnings.{BeginsAt, is_named};

use crate::notes::bad_record::push_reason;
use crate::notes::place::place_of;
use crate::notes::shown::{first_line, push_line};
use crate::notes::turn::turn_at;
use cam_types::Watched;
use event_rules::{Refusal, Stay};
use record_text::front;
use recording_file::RecordingFault;
use std::alloc::{AllocError, Global};
use trace_file::{TraceFault, event_record, read_trace};
use xpt_core::StayRecord;

/// The line of the record that the fault names, with its text; for a bad record a line on the rule that it breaks, and for a
/// send out of turn one on the CCB whose turn it was. The note is empty if the fault is none of a record, or the record isn't there.
pub fn trace_note(
    alloc: Global,
    name: &str,
    text: &[u8],
    fault: &TraceFault,
) -> Result<String, AllocError> {
    let text = front(text);
    let mut note = line_of(alloc, name, text, record_of(fault))?;
    match fault {
        TraceFault::BadRecord(record) => push_reason(alloc, &mut note, text, *record, false)?,
        TraceFault::Illegal(record, Refusal::NotHead) => {
            push_turn(alloc, &mut note, text, *record)?;
        }
        _ => {}
    }
    Ok(note)
}

/// The same of a recording, but that no turn is spoken of.
pub fn recording_note(
    alloc: Global,
    name: &str,
    text: &[u8],
    fault: &RecordingFault,
) -> Result<String, AllocError> {
    let text = front(text);
    let mut note = line_of(alloc, name, text, record_of_recording(fault))?;
    if let RecordingFault::BadRecord(record) = fault {
        push_reason(alloc, &mut note, text, *record, true)?;
    }
    Ok(note)
}

/// The line of the record with which the stay began that has no send: the submit of its CCB, or a requeue of it.
pub fn unsent_note(
    alloc: Global,
    name: &str,
    text: &[u8],
    stay: Stay,
) -> Result<String, AllocError> {
    line_of(alloc, name, text, beginning_of(alloc, text, stay))
}

// The number of the record that the fault names.
fn record_of(fault: &TraceFault) -> Option<u32> {
    match fault {
        TraceFault::BadHeader => Some(1),
        TraceFault::BadRecord(record)
        | TraceFault::BadField(record, _)
        | TraceFault::BadConfig(record, _)
        | TraceFault::Illegal(record, _) => Some(*record),
        TraceFault::TooLong | TraceFault::ReadFailed | TraceFault::OutOfMemory => None,
    }
}

// The same for a recording.
fn record_of_recording(fault: &RecordingFault) -> Option<u32> {
    match fault {
        RecordingFault::BadHeader => Some(1),
        RecordingFault::BadRecord(record)
        | RecordingFault::BadField(record, _)
        | RecordingFault::BadConfig(record, _)
        | RecordingFault::Illegal(record, _) => Some(*record),
        RecordingFault::TooLong | RecordingFault::ReadFailed | RecordingFault::OutOfMemory => None,
    }
}

// A note of the line of this record: an empty one if there is no such record.
fn line_of(
    alloc: Global,
    name: &str,
    text: &[u8],
    record: Option<u32>,
) -> Result<String, AllocError> {
    let mut note = String::new(alloc);
    if let Some(record) = record
        && let Some(place) = place_of(alloc, text, record)
    {
        let line = first_line(text.get(place.byte..).unwrap_or(&[]));
        push_line(alloc, &mut note, name, place.line, line)?;
    }
    Ok(note)
}

// Puts a line on the CCB whose turn it was after the note, if there was one.
fn push_turn(alloc: Global, note: &mut String, text: &[u8], record: u32) -> Result<(), AllocError> {
    let Some(place) = place_of(alloc, text, record) else {
        return Ok(());
    };
    let front = text.get(..place.byte).unwrap_or(&[]);
    let send = first_line(text.get(place.byte..).unwrap_or(&[]));
    match turn_at(alloc, front, send) {
        Some(ccb) => writeln!(note, "  it was the turn of ccb {ccb}"),
        None => Ok(()),
    }
}

// The number of the record with which the stay began.
fn beginning_of(alloc: Global, text: &[u8], stay: Stay) -> Option<u32>
    ensures { IfSome result (λ n. BeginsAt text.now stay n) }
{
    match read_trace(alloc, &mut Watched::new(text)) {
        Ok(history) => {
            let begun = named(history.stays(), stay)?;
            event_record(alloc, text, &history, begun.stay.place).ok()?
        }
        Err(_) => None,
    }
}

// The stay of this name.
fn named(stays: &[StayRecord], name: Stay) -> Option<StayRecord>
    ensures { result ≡ find (is_named name) stays.now }
{
    stays.iter().copied().find(|begun| is_named(name, begun))
}

fn is_named(name: Stay, begun: &StayRecord) -> bool
    ensures { result ≡ is_named name begun.now }
{
    begun.stay.ccb == name.ccb && begun.stay.attempt == name.attempt
}
