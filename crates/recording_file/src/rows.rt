//! Parses the rows that recordings alone have: how long a round is, the rounds, and a request.

ghost use Rattle.std.specs.Prelude.{◌≡◌, ◌≤◌, length, IfOk};
ghost use Rattle.csv.specs.Records.{fields_of};
ghost use Rattle.record_text.specs.Fields.{field_of, formed};
ghost use Rattle.recording_file.specs.Rows.{span_at, rounds_at, done_at, request_at};
ghost use Rattle.recording_file.specs.Words.{time_of};
ghost use Rattle.recording_file.specs.Recorded.{MAX_RECORDED_ROUNDS};

use crate::limits::MAX_RECORDED_ROUNDS;
use crate::request::Request;
use crate::span::{Span, TimeUnit};
use csv::ByteRecord;
use record_text::{field, is_text, number_at, optional_at, unused_from, within_at};

/// How long a round is, or the number of the first field that hasn't its form.
#[tactic(auto, unfolding(crate::specs::Rows::span_at))]
pub(crate) fn span_at(row: &ByteRecord) -> Result<Span, u32>
    requires { length (fields_of row.now) ≡ 8 }
    ensures value { result ≡ span_at (fields_of row.now) }
    ensures some { IfOk result (λ s. 1 ≤ s.count) }
{
    let count = within_at(row, 1, 1, u32::MAX)?;
    let unit = time_at(row)?;
    unused_from(row, 3)?;
    Ok(Span { count, unit })
}

fn time_at(row: &ByteRecord) -> Result<TimeUnit, u32>
    ensures { result ≡ formed (time_of (field_of (fields_of row.now) 2)) 2 }
{
    time_of(field(row, 2)).ok_or(3)
}

#[tactic(auto, unfolding(crate::specs::Words::time_of))]
fn time_of(field: &[u8]) -> Option<TimeUnit>
    ensures { result ≡ time_of field.now }
{
    let unit = if is_text(field, b"ns") {
        TimeUnit::Nanosecond
    } else if is_text(field, b"us") {
        TimeUnit::Microsecond
    } else if is_text(field, b"ms") {
        TimeUnit::Millisecond
    } else if is_text(field, b"s") {
        TimeUnit::Second
    } else {
        return None;
    };
    Some(unit)
}

/// The last round, or the number of the first field that hasn't its form.
#[tactic(auto, unfolding(crate::specs::Rows::rounds_at))]
pub(crate) fn rounds_at(row: &ByteRecord) -> Result<u32, u32>
    requires { length (fields_of row.now) ≡ 8 }
    ensures value { result ≡ rounds_at (fields_of row.now) }
    ensures within { IfOk result (λ n. (1 ≤ n) × (n ≤ MAX_RECORDED_ROUNDS)) }
{
    let rounds = within_at(row, 1, 1, MAX_RECORDED_ROUNDS)?;
    unused_from(row, 2)?;
    Ok(rounds)
}

/// The request of a record, or the number of the first field that hasn't its form.
#[tactic(auto, unfolding(crate::specs::Rows::request_at))]
pub(crate) fn request_at(completions: bool, row: &ByteRecord) -> Result<Request, u32>
    ensures { result ≡ request_at completions (fields_of row.now) }
{
    let driver = number_at(row, 1, 255)? as u8;
    let device = number_at(row, 2, u32::MAX)?;
    let priority = number_at(row, 3, u32::MAX)?;
    let arrival = number_at(row, 4, u32::MAX)?;
    let last = optional_at(row, 5, u32::MAX)?;
    let sent = number_at(row, 6, u32::MAX)?;
    let done = done_at(completions, sent, row)?;
    Ok(Request {
        driver,
        device,
        priority,
        arrival,
        last,
        sent,
        done,
    })
}

// The round in which a request was completed that was started in this one, if there is one.
#[tactic(auto, unfolding(crate::specs::Rows::done_at))]
fn done_at(completions: bool, sent: u32, row: &ByteRecord) -> Result<Option<u32>, u32>
    ensures { result ≡ done_at completions sent (fields_of row.now) }
{
    if field(row, 7).is_empty() {
        return Ok(None);
    }
    if !completions {
        return Err(8);
    }
    let done = within_at(row, 7, sent, u32::MAX)?;
    Ok(Some(done))
}
