//! Why a line is refused.

ghost use Rattle.std.specs.Prelude.{◌≡◌};
ghost use Rattle.capture_file.specs.declared.line_fault.LineFault.TheVariants.{OutOfMemory};

use crate::priority::LAST;
use std::alloc::{AllocError, AllocFailed};
use std::fmt;
use thiserror::Error;

/// A field of a line.
#[derive(Clone, Copy, Debug, PartialEq, Eq)]
pub enum Field {
    Cpu,
    Sequence,
    Time,
    Process,
    Sector,
    Sectors,
    Offset,
    Bytes,
    Latency,
    Wait,
    Size,
    Direction,
    Start,
    End,
    Priority,
}

impl Field {
    // The most that it may be. Times are in nanoseconds.
    fn most(self) -> u64 {
        match self {
            Field::Priority => u64::from(LAST),
            _ => u64::MAX,
        }
    }
}

impl fmt::Display for Field {
    fn fmt<W: fmt::Write>(&self, f: &mut fmt::Formatter<W>) -> fmt::Result {
        f.write_str(match self {
            Field::Cpu => "cpu",
            Field::Sequence => "sequence number",
            Field::Time => "time",
            Field::Process => "process id",
            Field::Sector => "sector",
            Field::Sectors => "count of sectors",
            Field::Offset => "offset",
            Field::Bytes => "count of bytes",
            Field::Latency => "latency",
            Field::Wait => "wait",
            Field::Size => "size",
            Field::Direction => "direction",
            Field::Start => "start",
            Field::End => "end",
            Field::Priority => "priority",
        })
    }
}

/// Why a line is refused. It is then left out.
#[derive(Clone, Copy, Debug, Error, PartialEq, Eq)]
pub enum LineFault {
    /// The line isn't one of the tool's.
    NotAnEvent,
    /// The time is before that of an earlier line.
    TimeFalls,
    /// The arrival is more than a second before that of an earlier line.
    TimeFallsFar,
    /// A field isn't a number, or isn't in its range.
    BadNumber(Field),
    /// The line names one driver more than there may be.
    TooManyDrivers,
    /// The requests have so many devices: more than there may be. Only the end of the input has this fault.
    TooManyDevices(usize),
    /// The line isn't one of an iolog.
    NotAnAction,
    /// The line isn't one of a latency log.
    NotARecord,
    /// The latency log has no offsets or no priorities.
    NoOffset,
    /// The latency log has averages.
    Averages,
    /// The file isn't an iolog, and its job's iolog didn't come before it.
    NoIolog,
    /// The file is an iolog, and its job had one already.
    SecondIolog,
    /// No file was begun.
    NoFile,
    /// The header of a CSV file names a column twice that is read. Columns are numbered from 1.
    DoubleColumn(u64),
    /// The header of a CSV file lacks a column that is needed.
    MissingColumn,
    /// The header of a CSV file lacks the column of the drivers that are asked for.
    MissingDriver,
    /// The table of `biosnoop` has no waits.
    NoWaits,
    /// The record hasn't as many fields as the header.
    BadRecord,
    /// The line names the columns again.
    SecondHeader,
    /// A quoted field has no end, or goes on after its end.
    BadQuotes,
    /// A carriage return stands inside the line.
    CarriageReturn,
    /// The request was started before it arrived.
    StartedEarly,
    /// The request was completed before it was started.
    EndedEarly,
    /// The request was completed and never started.
    EndedUnstarted,
    /// The line is longer than 65,536 bytes.
    TooLong,
    /// There is no memory left.
    OutOfMemory,
}

impl fmt::Display for LineFault {
    fn fmt<W: fmt::Write>(&self, f: &mut fmt::Formatter<W>) -> fmt::Result {
        f.write_str(match self {
            LineFault::NotAnEvent => "not an event",
            LineFault::TimeFalls => "the time is before that of an earlier line",
            LineFault::TimeFallsFar =>
                "the arrival is more than a second before that of an earlier line: sort the lines by arrival, or read all of it first by --unsorted",
            LineFault::BadNumber(field) => return write!(
                f,
                "the {field} isn't a number from 0 to {}",
                field.most()
            ),
            LineFault::TooManyDrivers =>
                "a 257th driver, and a recording has at most 256: take fewer requests by --device or --to-time",
            LineFault::TooManyDevices(count) => return write!(
                f,
                "{count} devices, and a recording has at most 32: pick some by --device, or several as one"
            ),
            LineFault::NotAnAction => "not a line of an iolog",
            LineFault::NotARecord => "not a record of a latency log",
            LineFault::NoOffset =>
                "the latency log has no offsets or priorities: set log_offset=1 and log_prio=1",
            LineFault::Averages => "the latency log has averages: unset log_avg_msec",
            LineFault::NoIolog => "no iolog of this job came before this file",
            LineFault::SecondIolog => "a second iolog of this job",
            LineFault::NoFile => "no file was begun",
            LineFault::DoubleColumn(column) => return write!(
                f,
                "column {column} has the name of an earlier one: leave one of them out"
            ),
            LineFault::MissingColumn => "a column is missing: arrival, start and device are needed",
            LineFault::MissingDriver => "a column is missing: the one that --driver-by names",
            LineFault::NoWaits => "no QUE(ms): run biosnoop with -Q",
            LineFault::BadRecord => "not as many fields as the header has columns",
            LineFault::SecondHeader =>
                "a second header: leave it out, or import each table by itself",
            LineFault::BadQuotes =>
                "a quote that doesn't end, or ends before its field does: a quote inside a quoted field is written twice",
            LineFault::CarriageReturn =>
                "a carriage return inside the line: end lines with a line feed, with or without a carriage return before it",
            LineFault::StartedEarly => "the start is before the arrival",
            LineFault::EndedEarly => "the end is before the start",
            LineFault::EndedUnstarted => "an end without a start",
            LineFault::TooLong => "a line of more than 65,536 bytes",
            LineFault::OutOfMemory => "out of memory",
        })
    }
}

impl From<AllocError> for LineFault {
    ghost from_gives = { λ _ e. e ≡ OutOfMemory };

    fn from(_error: AllocError) -> LineFault {
        LineFault::OutOfMemory
    }
}

impl<T: Drop> From<AllocFailed<T>> for LineFault {
    ghost from_gives = { λ _ e. e ≡ OutOfMemory };

    fn from(_error: AllocFailed<T>) -> LineFault {
        LineFault::OutOfMemory
    }
}
