//! The lines of `biosnoop -Q`.

use crate::line_fault::{Field, LineFault};
use crate::number::{number, time_of};
use crate::options::SKEW;
use crate::row::Row;
use crate::words::{check_flags, next_word};

const HEAD: &[u8] = b"TIME(s)";

const QUEUED: &[u8] = b"QUE(ms)";

/// What a line says of a request that has ended: when, after how long a service, and how long it waited before. None of the head. A time
/// before that of the first line is 0, and a request that arrived before is said to have no arrival.
pub fn biosnoop_row(line: &[u8]) -> Result<Option<Row<'_>>, LineFault> {
    let (time, text) = word(line)?;
    if time == HEAD {
        let has_waits = line.split(|byte| *byte == b' ').any(|word| word == QUEUED);
        return if has_waits {
            Ok(None)
        } else {
            Err(LineFault::NoWaits)
        };
    }
    let completed = time_of(time, 1_000_000_000).ok_or(LineFault::BadNumber(Field::Time))?;
    let (text, latency) = last_word(text)?;
    let (text, queued) = last_word(text)?;
    let (text, bytes) = last_word(text)?;
    let (text, sector) = last_word(text)?;
    let (text, flags) = last_word(text)?;
    let (text, device) = last_word(text)?;
    let (comm, pid) = last_word(text)?;
    check_flags(flags)?;
    let latency = milliseconds(latency).ok_or(LineFault::BadNumber(Field::Latency))?;
    let is_early = queued.first() == Some(&b'-');
    let queued = milliseconds(queued.strip_prefix(b"-").unwrap_or(queued)).ok_or(
        LineFault::BadNumber(Field::Wait),
    )?;
    number(sector).ok_or(LineFault::BadNumber(Field::Sector))?;
    let size = number(bytes).ok_or(LineFault::BadNumber(Field::Bytes))?;
    if is_early && queued > SKEW {
        return Err(LineFault::StartedEarly);
    }
    let start = completed.saturating_sub(latency);
    let arrival = if is_early {
        start.saturating_add(queued)
    } else {
        start.saturating_sub(queued)
    };
    let before = if is_early {
        latency
    } else {
        latency.saturating_add(queued)
    };
    Ok(Some(Row {
        arrival,
        started: Some(start),
        completed: Some(completed),
        has_arrival: before <= completed,
        priority: None,
        flags,
        size,
        device,
        driver: b"",
        comm: comm.trim_ascii(),
        pid,
        cgroup: b"",
    }))
}

fn milliseconds(text: &[u8]) -> Option<u64> {
    time_of(text, 1_000_000)
}

fn word(text: &[u8]) -> Result<(&[u8], &[u8]), LineFault> {
    next_word(text).ok_or(LineFault::NotAnEvent)
}

// What comes before the last word, and that word.
fn last_word(text: &[u8]) -> Result<(&[u8], &[u8]), LineFault> {
    let text = text.trim_ascii_end();
    if text.is_empty() {
        return Err(LineFault::NotAnEvent);
    }
    match text.iter().rposition(|byte| byte.is_ascii_whitespace()) {
        None => Ok((b"", text)),
        Some(blank) => Ok((
            text.get(..blank).unwrap_or(b""),
            text.get(blank..)
                .and_then(|rest| rest.get(1..))
                .unwrap_or(b""),
        )),
    }
}
