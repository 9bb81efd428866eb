//! The fields of a CSV file's row.

use crate::columns::Columns;
use crate::line_fault::{Field, LineFault};
use crate::number::{number, time_of};
use crate::options::SKEW;
use crate::priority::LAST;
use crate::row::Row;
use csv::ByteRecord;

/// What a row says. The unit of its times has so many nanoseconds.
pub fn csv_row(unit: u64, columns: Columns, row: &ByteRecord) -> Result<Row<'_>, LineFault> {
    if row.len() != columns.count {
        return Err(LineFault::BadRecord);
    }
    let (arrival, started, completed) = times(unit, columns, row)?;
    let priority = stated_priority(field(row, columns.priority))?;
    Ok(Row {
        arrival,
        started,
        completed,
        has_arrival: true,
        priority,
        flags: b"",
        size: size_of(field(row, columns.size))?,
        device: field(row, Some(columns.device)),
        driver: field(row, columns.driver),
        comm: field(row, columns.comm),
        pid: field(row, columns.pid),
        cgroup: field(row, columns.cgroup),
    })
}

// The arrival, the start and the end.
fn times(
    unit: u64,
    columns: Columns,
    row: &ByteRecord,
) -> Result<(u64, Option<u64>, Option<u64>), LineFault> {
    let arrival = time(unit, field(row, Some(columns.arrival)), Field::Time)?;
    let started = optional_time(unit, field(row, Some(columns.start)), Field::Start)?;
    let completed = optional_time(unit, field(row, columns.end), Field::End)?;
    if started.is_some_and(|time| time.saturating_add(SKEW) < arrival) {
        return Err(LineFault::StartedEarly);
    }
    match (started, completed) {
        (None, Some(_)) => Err(LineFault::EndedUnstarted),
        (Some(start), Some(end)) if end < start => Err(LineFault::EndedEarly),
        _ => Ok((arrival, started, completed)),
    }
}

fn time(unit: u64, text: &[u8], name: Field) -> Result<u64, LineFault> {
    time_of(text, unit).ok_or(LineFault::BadNumber(name))
}

fn optional_time(unit: u64, text: &[u8], name: Field) -> Result<Option<u64>, LineFault> {
    if text.is_empty() {
        return Ok(None);
    }
    Ok(Some(time(unit, text, name)?))
}

// Without a column it is empty.
fn field(row: &ByteRecord, column: Option<usize>) -> &[u8] {
    match column {
        None => b"",
        Some(column) => row.get(column).unwrap_or(b"").trim_ascii(),
    }
}

fn size_of(text: &[u8]) -> Result<u64, LineFault> {
    if text.is_empty() {
        return Ok(0);
    }
    number(text).ok_or(LineFault::BadNumber(Field::Size))
}

fn stated_priority(text: &[u8]) -> Result<Option<u32>, LineFault> {
    if text.is_empty() {
        return Ok(None);
    }
    match number(text).and_then(|stated| u32::try_from(stated).ok()) {
        Some(stated) if stated <= LAST => Ok(Some(stated)),
        _ => Err(LineFault::BadNumber(Field::Priority)),
    }
}
