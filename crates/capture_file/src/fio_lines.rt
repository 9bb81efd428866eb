//! The lines of fio's iologs and latency logs.

use crate::line_fault::{Field, LineFault};
use crate::number::{hexadecimal, number};
use crate::words::{next_column, next_word};

/// The version of an iolog.
#[derive(Clone, Copy)]
pub enum IologVersion {
    /// No times, but waits.
    Two,
    /// A time in each line.
    Three,
}

/// What a request does.
#[derive(Clone, Copy, PartialEq, Eq, PartialOrd, Ord)]
pub enum Direction {
    Read,
    Write,
    Trim,
}

// What an action of an iolog does.
#[derive(Clone, Copy)]
enum IologAction {
    Does(Direction),
    Waits,
    Nothing,
}

const ACTIONS: [(&str, IologAction); 10] = [
    ("read", IologAction::Does(Direction::Read)),
    ("write", IologAction::Does(Direction::Write)),
    ("trim", IologAction::Does(Direction::Trim)),
    ("wait", IologAction::Waits),
    ("add", IologAction::Nothing),
    ("open", IologAction::Nothing),
    ("close", IologAction::Nothing),
    ("sync", IologAction::Nothing),
    ("datasync", IologAction::Nothing),
    ("sync_file_range", IologAction::Nothing),
];

/// What joins a line of an iolog and a record of a latency log.
#[derive(Clone, Copy, PartialEq, Eq, PartialOrd, Ord)]
pub struct Piece {
    pub direction: Direction,
    pub bytes: u64,
    pub offset: u64,
}

/// What a line of an iolog says.
#[derive(Clone, Copy)]
pub enum IologLine<'a> {
    /// A request of a file. The time is in microseconds, in version 2 none.
    Request {
        time: Option<u64>,
        file: &'a [u8],
        piece: Piece,
    },
    /// So many microseconds go by.
    Wait(u64),
    /// Nothing of a request.
    Other,
}

/// A record of a latency log: the time in milliseconds, the latency in nanoseconds, and the I/O class and level, if the log has
/// them.
#[derive(Clone, Copy)]
pub struct LatencyRecord {
    pub milliseconds: u64,
    pub latency: u64,
    pub piece: Piece,
    pub ioprio: Option<u64>,
}

/// The version that the first line of an iolog says. None if it isn't one.
pub fn iolog_version(line: &[u8]) -> Option<IologVersion> {
    let line = line.trim_ascii();
    if line == b"fio version 2 iolog".as_slice() {
        Some(IologVersion::Two)
    } else if line == b"fio version 3 iolog".as_slice() {
        Some(IologVersion::Three)
    } else {
        None
    }
}

/// What a line of an iolog says.
pub fn iolog_line(version: IologVersion, line: &[u8]) -> Result<IologLine<'_>, LineFault> {
    let (time, text) = iolog_time(version, line)?;
    let (file, text) = action_word(text)?;
    let (action, text) = action_word(text)?;
    match iolog_action(action)? {
        IologAction::Does(direction) => request(time, file, direction, text),
        IologAction::Waits => Ok(IologLine::Wait(action_number(text, Field::Time)?.0)),
        IologAction::Nothing => Ok(IologLine::Other),
    }
}

fn iolog_time(version: IologVersion, line: &[u8]) -> Result<(Option<u64>, &[u8]), LineFault> {
    match version {
        IologVersion::Two => Ok((None, line)),
        IologVersion::Three => {
            let (time, text) = action_number(line, Field::Time)?;
            Ok((Some(time), text))
        }
    }
}

fn iolog_action(word: &[u8]) -> Result<IologAction, LineFault> {
    for (name, action) in ACTIONS.iter() {
        if name.as_bytes() == word {
            return Ok(*action);
        }
    }
    Err(LineFault::NotAnAction)
}

fn request<'a>(
    time: Option<u64>,
    file: &'a [u8],
    direction: Direction,
    text: &'a [u8],
) -> Result<IologLine<'a>, LineFault> {
    let (offset, text) = action_number(text, Field::Offset)?;
    let (bytes, text) = action_number(text, Field::Bytes)?;
    if !text.trim_ascii().is_empty() {
        return Err(LineFault::NotAnAction);
    }
    Ok(IologLine::Request {
        time,
        file,
        piece: Piece {
            direction,
            bytes,
            offset,
        },
    })
}

fn action_word(text: &[u8]) -> Result<(&[u8], &[u8]), LineFault> {
    next_word(text).ok_or(LineFault::NotAnAction)
}

fn action_number(text: &[u8], field: Field) -> Result<(u64, &[u8]), LineFault> {
    let (digits, rest) = action_word(text)?;
    match number(digits) {
        None => Err(LineFault::BadNumber(field)),
        Some(value) => Ok((value, rest)),
    }
}

/// The record of a line of a latency log.
pub fn latency_record(line: &[u8]) -> Result<LatencyRecord, LineFault> {
    check_columns(line)?;
    let (milliseconds, line) = column_number(line, Field::Time)?;
    let (latency, line) = column_number(line, Field::Latency)?;
    let (piece, ioprio) = record_piece(line)?;
    if piece.bytes == 0 {
        return Err(LineFault::Averages);
    }
    Ok(LatencyRecord {
        milliseconds,
        latency,
        piece,
        ioprio,
    })
}

fn record_piece(line: &[u8]) -> Result<(Piece, Option<u64>), LineFault> {
    let (direction, line) = column_direction(line)?;
    let (bytes, line) = column_number(line, Field::Bytes)?;
    let (offset, line) = column_number(line, Field::Offset)?;
    let piece = Piece {
        direction,
        bytes,
        offset,
    };
    Ok((piece, ioprio_of(next_column(line).0)?))
}

// Six or seven columns. Four or five are those of a log without offsets.
fn check_columns(line: &[u8]) -> Result<(), LineFault> {
    match line.iter().filter(|byte| **byte == b',').count() {
        3 | 4 => Err(LineFault::NoOffset),
        5 | 6 => Ok(()),
        _ => Err(LineFault::NotARecord),
    }
}

fn column_number(text: &[u8], field: Field) -> Result<(u64, &[u8]), LineFault> {
    let (digits, rest) = next_column(text);
    match number(digits) {
        None => Err(LineFault::BadNumber(field)),
        Some(value) => Ok((value, rest)),
    }
}

fn column_direction(text: &[u8]) -> Result<(Direction, &[u8]), LineFault> {
    let (number, rest) = column_number(text, Field::Direction)?;
    match number {
        0 => Ok((Direction::Read, rest)),
        1 => Ok((Direction::Write, rest)),
        2 => Ok((Direction::Trim, rest)),
        _ => Err(LineFault::BadNumber(Field::Direction)),
    }
}

// A hexadecimal number is a class and a level, a decimal one none.
fn ioprio_of(text: &[u8]) -> Result<Option<u64>, LineFault> {
    let ioprio = match text.strip_prefix(b"0x") {
        None => number(text).map(|_| None),
        Some(digits) => hexadecimal(digits).map(Some),
    };
    ioprio.ok_or(LineFault::BadNumber(Field::Priority))
}
