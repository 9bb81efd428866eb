//! Reads tables: CSV with named columns, and what `biosnoop` prints.

use crate::biosnoop_row::biosnoop_row;
use crate::captured::{Capture, Counts};
use crate::columns::{Columns, columns_of, other_columns};
use crate::csv_row::csv_row;
use crate::finishing::{Drivers, Flown, capture_of, names_text};
use crate::flights::Times;
use crate::line_fault::LineFault;
use crate::lost_events::lost_in;
use crate::names::Names;
use crate::options::{CsvTimeUnit, Options, Priorities, SLACK};
use crate::priority::{USUAL, flags_priority};
use crate::quotes::are_quotes_whole;
use crate::row::Row;
use crate::sizes::Sizes;
use crate::sorted_reader::push_parts;
use crate::tenants::Tenants;
use capture::TimedRequest;
use capture_windows::Attempt;
use csv::{ByteRecord, ReaderBuilder};
use std::alloc::{AllocError, Global};

// With it some programs begin a text of UTF-8.
const BYTE_ORDER_MARK: &[u8] = b"\xef\xbb\xbf";

/// What kind of table it is.
#[derive(Clone, Copy, PartialEq, Eq)]
pub enum TableForm {
    /// CSV: a header, then a request in each line.
    ///
    /// The header names the columns `arrival`, `start`, `end`, `device`, `driver`, `priority`, `size`, `comm`, `pid` and `cgroup` in any
    /// order, and others, which aren't read; `arrival`, `start` and `device` are needed. Times are decimal numbers of the unit, also with
    /// a fraction, of which the part below a nanosecond is dropped. A request with an empty start was never started. A request with an
    /// empty end wasn't completed, as far as is known. With no priority it is as best effort of level 4. No field has an end of a line.
    Csv(CsvTimeUnit),
    /// What `biosnoop -Q` prints: a request in each line, when it has ended. Priorities go by direction.
    Biosnoop,
}

/// Reads a table, line by line. A start that comes at most 100 us before its arrival was seen by another processor's clock: that request
/// arrived when it was started. With no driver a request is of the driver `driver`.
#[derive(Drop)]
pub struct TableReader<'a> {
    alloc: Global,
    options: &'a Options,
    form: TableForm,
    columns: Option<Columns>,
    other_columns: Vec<String>,
    pub(crate) devices: Names,
    pub(crate) drivers: Drivers,
    pub(crate) attempts: Vec<Attempt>,
    sizes: Sizes,
    others: Names,
    tenants: Tenants,
    // The latest arrival.
    pub(crate) time: u64,
    // The first arrival, and the latest time.
    times: Option<Times>,
    pub(crate) counts: Counts,
}

impl<'a> TableReader<'a> {
    /// A reader that has no lines yet.
    pub fn new(alloc: Global, options: &'a Options, form: TableForm) -> TableReader<'a> {
        TableReader {
            alloc,
            options,
            form,
            columns: None,
            other_columns: Vec::new(alloc),
            devices: Names::new(alloc),
            drivers: Drivers::new(alloc),
            attempts: Vec::new(alloc),
            sizes: Sizes::new(alloc),
            others: Names::new(alloc),
            tenants: Tenants::new(alloc),
            time: 0,
            times: None,
            counts: Counts::default(),
        }
    }

    /// What was read. A device has the slots that `depths` gives it by its name.
    ///
    /// # Errors
    ///
    /// `MissingColumn` if there was no header, `TooManyDevices` if more than 32 devices have requests, `OutOfMemory` if no memory
    /// is left.
    pub fn finish(self, depths: &[(String, u32)]) -> Result<Capture, LineFault> {
        if self.columns.is_none() && self.form != TableForm::Biosnoop {
            return Err(LineFault::MissingColumn);
        }
        let (mut requests, mut started) = (Vec::new(self.alloc), Vec::new(self.alloc));
        for attempt in &self.attempts {
            push_parts(attempt, &mut requests, &mut started)?;
        }
        let mut counts = self.counts;
        counts.has_processes = self.tenants.are_several();
        let flown = Flown {
            times: self.times.unwrap_or(Times { begin: 0, end: 0 }),
            depths,
            started,
            unstarted: Vec::new(self.alloc),
        };
        let capture = capture_of(
            self.alloc,
            self.options,
            requests,
            Some(&flown),
            self.devices.list(),
            self.drivers.list(),
            &self.sizes,
            counts,
        )?;
        Ok(Capture {
            other_columns: self.other_columns,
            others: names_text(self.alloc, self.others.list())?,
            ..capture
        })
    }

    fn header(&mut self, row: &ByteRecord) -> Result<(), LineFault> {
        let columns = columns_of(row)?;
        if !columns.have(self.options.driver_by) {
            return Err(LineFault::MissingDriver);
        }
        self.columns = Some(columns);
        self.other_columns = other_columns(self.alloc, row)?;
        Ok(())
    }

    // A line of CSV. Blank ones are passed over; the first other one is the header, and a later one that isn't a request may be another.
    fn take_csv(&mut self, unit: CsvTimeUnit, line: &[u8]) -> Result<(), LineFault> {
        let record = row_of(self.alloc, line)?;
        let Some(columns) = self.columns else {
            return self.header(&record);
        };
        let done = match csv_row(unit.nanoseconds(), columns, &record) {
            Ok(row) => self.request(row),
            Err(fault) => Err(fault),
        };
        match done {
            Err(fault) if fault != LineFault::OutOfMemory && columns_of(&record).is_ok() => {
                Err(LineFault::SecondHeader)
            }
            done => done,
        }
    }

    fn request(&mut self, row: Row<'_>) -> Result<(), LineFault> {
        let is_sorted = self.options.is_sorted && self.form != TableForm::Biosnoop;
        if is_sorted && row.arrival.saturating_add(SLACK) < self.time {
            return Err(LineFault::TimeFallsFar);
        }
        self.time = row.arrival.max(self.time);
        match self.options.listed_device(row.device) {
            Some(device) => self.add(row, device),
            None => {
                self.counts.other_devices = self.counts.other_devices.saturating_add(1);
                Ok(self.others.note(row.device)?)
            }
        }
    }

    // The times of what is read are from the first arrival to the latest time.
    fn note_times(&mut self, row: &Row<'_>, arrival: u64) {
        let latest = row
            .completed
            .unwrap_or(0)
            .max(row.started.unwrap_or(0))
            .max(arrival);
        self.times = Some(match self.times {
            None => Times {
                begin: arrival,
                end: latest,
            },
            Some(Times { begin, end }) => Times {
                begin: begin.min(arrival),
                end: end.max(latest),
            },
        });
    }

    fn add(&mut self, row: Row<'_>, device: &[u8]) -> Result<(), LineFault> {
        let arrival = row
            .started
            .map_or(row.arrival, |start| start.min(row.arrival));
        self.note_times(&row, arrival);
        // What arrives at other times is left out, and so are its drivers.
        let is_in_time = self.options.takes_time(arrival);
        let is_taken = row.has_arrival && is_in_time;
        let (driver, own) = if is_taken {
            self.tenants.note(row.pid)?;
            self.drivers
                .number(self.options, row.driver_by(self.options.driver_by))?
        } else {
            (0, None)
        };
        let device = self.devices.device(device)?;
        self.count(&row, device, is_in_time)?;
        let usual = usual_priority(self.options.priorities, row.priority, row.flags);
        self.attempts.push(Attempt {
            request: TimedRequest {
                arrival,
                started: row.started,
                retried: None,
                completed: row.completed,
                driver,
                device,
                priority: own.unwrap_or(usual),
            },
            is_taken,
            has_slot: true,
            number: 0,
        })?;
        Ok(())
    }

    fn count(&mut self, row: &Row<'_>, device: u32, is_in_time: bool) -> Result<(), AllocError> {
        let counts = &mut self.counts;
        if !row.has_arrival {
            counts.without_arrival = counts.without_arrival.saturating_add(1);
        } else if !is_in_time {
            counts.other_times = counts.other_times.saturating_add(1);
        } else if let Some(start) = row.started {
            if start < row.arrival {
                counts.early_starts = counts.early_starts.saturating_add(1);
            }
            self.sizes.add(device, row.size)?;
        }
        Ok(())
    }

    /// Takes a line. Blank lines are passed over.
    ///
    /// # Errors
    ///
    /// Of CSV `DoubleColumn`, `MissingColumn` and `MissingDriver` of the header; `SecondHeader`, `BadRecord` and `EndedUnstarted` of the
    /// other lines; `BadQuotes`. Of `biosnoop` `NotAnEvent` and `NoWaits`. Of both `BadNumber`, `StartedEarly`, `EndedEarly`,
    /// `TimeFallsFar`, `TooManyDrivers` and `OutOfMemory`.
    pub(crate) fn take(&mut self, line: &[u8]) -> Result<(), LineFault> {
        self.counts.lines = self.counts.lines.saturating_add(1);
        if line.trim_ascii().is_empty() {
            return Ok(());
        }
        if let Some(lost) = lost_in(line) {
            return Ok(self.counts.count_lost(lost));
        }
        match self.form {
            TableForm::Csv(unit) => self.take_csv(unit, line),
            TableForm::Biosnoop => match biosnoop_row(line)? {
                Some(row) => self.request(row),
                None => Ok(()),
            },
        }
    }

    /// Whether all that arrives before the end of what is taken was read.
    pub(crate) fn is_done(&self) -> bool {
        self.form != TableForm::Biosnoop
            && self
                .options
                .last_arrival()
                .is_some_and(|last| last <= self.time)
    }

    /// Gives away all attempts that are known, in the order of their arrivals.
    pub(crate) fn take_attempts(&mut self) -> Vec<Attempt> {
        std::mem::replace(&mut self.attempts, Vec::new(self.alloc))
    }
}

fn row_of(alloc: Global, line: &[u8]) -> Result<ByteRecord, LineFault> {
    let line = line.strip_prefix(BYTE_ORDER_MARK).unwrap_or(line);
    if !line.contains(&b'"') {
        Ok(plain_row(alloc, line)?)
    } else if are_quotes_whole(line) {
        quoted_row(alloc, line)
    } else {
        Err(LineFault::BadQuotes)
    }
}

fn plain_row(alloc: Global, line: &[u8]) -> Result<ByteRecord, AllocError> {
    let mut row = ByteRecord::new(alloc);
    for field in line.split(|byte| *byte == b',') {
        row.push_field(field)?;
    }
    Ok(row)
}

// A reader takes longer to make than a line to read, so only such lines get one. Over a slice it fails only where there is no
// memory.
fn quoted_row(alloc: Global, line: &[u8]) -> Result<ByteRecord, LineFault> {
    let mut reader = ReaderBuilder::new()
        .has_headers(false)
        .flexible(true)
        .from_reader(alloc, line);
    let mut row = ByteRecord::new(alloc);
    match reader.read_byte_record(&mut row) {
        Ok(_) => Ok(row),
        Err(_) => Err(LineFault::OutOfMemory),
    }
}

fn usual_priority(priorities: Priorities, stated: Option<u32>, flags: &[u8]) -> u32 {
    let by_direction = if flags.is_empty() {
        USUAL
    } else {
        flags_priority(flags)
    };
    match priorities {
        Priorities::Class => stated.unwrap_or(by_direction),
        Priorities::Direction => by_direction,
        Priorities::Flat => USUAL,
    }
}
