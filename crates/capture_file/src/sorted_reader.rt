//! Readers from which windows of a capture are taken while it is read.

use crate::captured::{Capture, Counts};
use crate::event_reader::EventReader;
use crate::flights::Started;
use crate::line_fault::LineFault;
use crate::line_reader::LineReader;
use crate::table_reader::TableReader;
use capture::TimedRequest;
use capture_windows::{Attempt, TimeSpan};
use slots::End;
use std::alloc::AllocError;

/// A reader of a capture from which attempts can be taken while it is read, if its lines are in the order of time but for a second: what
/// happened up to a second before the last line is known then.
#[derive(Drop)]
pub enum SortedReader<'a> {
    Events(EventReader<'a>),
    Table(TableReader<'a>),
}

impl SortedReader<'_> {
    /// What was read. A device has the slots that `depths` gives it by its name.
    ///
    /// # Errors
    ///
    /// `MissingColumn` if a table had no header, `TooManyDevices` if more than 32 devices have requests, `OutOfMemory` if no memory is left.
    pub fn finish(self, depths: &[(String, u32)]) -> Result<Capture, LineFault> {
        match self {
            SortedReader::Events(reader) => reader.finish(depths),
            SortedReader::Table(reader) => reader.finish(depths),
        }
    }

    /// The latest time of a line, in nanoseconds of the capture's clock; 0 before the first.
    pub fn time(&self) -> u64 {
        match self {
            SortedReader::Events(reader) => reader.last_time,
            SortedReader::Table(reader) => reader.time,
        }
    }

    /// Gives away all attempts that are known, in the order of their arrivals. Their devices and drivers are places in the two lists.
    pub fn take_attempts(&mut self) -> Result<Vec<Attempt>, AllocError> {
        match self {
            SortedReader::Events(reader) => reader.take_attempts(),
            SortedReader::Table(reader) => Ok(reader.take_attempts()),
        }
    }

    /// Takes back those that go on after a window, of all that were given away.
    pub fn take_back(
        &mut self,
        all: &[Attempt],
        window: TimeSpan,
        going_on: Vec<Attempt>,
    ) -> Result<(), AllocError> {
        match self {
            SortedReader::Events(reader) => reader.take_back(all, window, &going_on),
            SortedReader::Table(reader) => {
                reader.attempts = going_on;
                Ok(())
            }
        }
    }

    /// The names of devices.
    pub fn devices(&self) -> &[Vec<u8>] {
        match self {
            SortedReader::Events(reader) => reader.devices.listed(),
            SortedReader::Table(reader) => reader.devices.list(),
        }
    }

    /// The names of drivers.
    pub fn drivers(&self) -> &[Vec<u8>] {
        match self {
            SortedReader::Events(reader) => reader.drivers.list(),
            SortedReader::Table(reader) => reader.drivers.list(),
        }
    }

    /// What was read so far.
    pub fn counts(&self) -> Counts {
        match self {
            SortedReader::Events(reader) => reader.counts,
            SortedReader::Table(reader) => reader.counts,
        }
    }
}

impl LineReader for SortedReader<'_> {
    fn take(&mut self, line: &[u8]) -> Result<(), LineFault> {
        match self {
            SortedReader::Events(reader) => reader.take(line),
            SortedReader::Table(reader) => reader.take(line),
        }
    }

    fn count_refused(&mut self) {
        match self {
            SortedReader::Events(reader) => reader.counts.count_refused(),
            SortedReader::Table(reader) => reader.counts.count_refused(),
        }
    }

    fn is_done(&self) -> bool {
        match self {
            SortedReader::Events(reader) => reader.is_done,
            SortedReader::Table(reader) => reader.is_done(),
        }
    }
}

/// Adds an attempt's request if it is taken, and its flight if it was started.
pub fn push_parts(
    attempt: &Attempt,
    requests: &mut Vec<TimedRequest>,
    started: &mut Vec<Started>,
) -> Result<(), AllocError> {
    let request = attempt.request;
    if attempt.is_taken {
        requests.push(request)?;
    }
    if attempt.has_slot
        && let Some(start) = request.started
    {
        let end = match (request.completed, request.retried) {
            (Some(time), _) => End::Completed(time),
            (None, Some(time)) => End::PutBack(time),
            (None, None) => End::Unknown,
        };
        started.push(Started {
            device: request.device,
            start,
            end,
        })?;
    }
    Ok(())
}
