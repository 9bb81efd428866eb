//! Reads fio's logs.

use crate::captured::{Capture, Counts};
use crate::finishing::{Drivers, capture_of};
use crate::fio_job::{Job, job_name};
use crate::fio_lines::{
    IologLine, IologVersion, LatencyRecord, Piece, iolog_line, iolog_version, latency_record,
};
use crate::line_fault::{Field, LineFault};
use crate::line_reader::LineReader;
use crate::names::Names;
use crate::options::{Options, Priorities};
use crate::priority::class_priority;
use crate::sizes::Sizes;
use capture::TimedRequest;
use std::alloc::{AllocError, Global};

// What the lines of the file are. The number is the job's.
#[derive(Clone, Copy)]
enum FileKind {
    None,
    Begun(usize),
    Iolog(usize, IologVersion),
    LatencyLog(usize),
}

// The files of a job: which one was the first, and whether one came after its iolog.
#[derive(Clone, Copy)]
struct JobFiles {
    first: usize,
    has_log: bool,
}

/// Reads fio's iologs and latency logs, file by file and line by line.
///
/// A file is an iolog if its first line is `fio version 2 iolog` or `fio version 3 iolog`, else a latency log. A job's iolog
/// comes before its latency log; they are of one job if `NAME.iolog` and `NAME_lat.log` or `NAME_lat.N.log` have the same name.
/// A record belongs to the first request of the same direction, bytes and offset that has none yet. The logs have no starts: a
/// request's start is its completion, and one without a record never started. If the records have milliseconds since 1970
/// (`log_unix_epoch=1`), those jobs are aligned by them to about a millisecond, the earliest at 0.
#[derive(Drop)]
pub struct FioReader<'a> {
    alloc: Global,
    options: &'a Options,
    devices: Names,
    drivers: Drivers,
    job_names: Names,
    jobs: Vec<Option<Job>>,
    job_files: Vec<JobFiles>,
    files: usize,
    file: FileKind,
    counts: Counts,
}

impl<'a> FioReader<'a> {
    /// A reader that has no files yet.
    pub fn new(alloc: Global, options: &'a Options) -> FioReader<'a> {
        FioReader {
            alloc,
            options,
            devices: Names::new(alloc),
            drivers: Drivers::new(alloc),
            job_names: Names::new(alloc),
            jobs: Vec::new(alloc),
            job_files: Vec::new(alloc),
            files: 0,
            file: FileKind::None,
            counts: Counts::default(),
        }
    }

    /// Begins a file. The lines that come next are its lines.
    ///
    /// # Errors
    ///
    /// `OutOfMemory` if no memory is left.
    pub fn begin_file(&mut self, path: &str) -> Result<(), LineFault> {
        let name = job_name(path.as_bytes());
        let job = match self.job_names.number_of(name) {
            Some(job) => job,
            None => self.add_job(name)?,
        };
        let has_iolog = matches!(self.jobs.get(job), Some(Some(_)));
        if let Some(files) = self.job_files.get_mut(job) {
            files.has_log = has_iolog;
        }
        self.files = self.files.saturating_add(1);
        self.file = FileKind::Begun(job);
        Ok(())
    }

    fn add_job(&mut self, name: &[u8]) -> Result<usize, AllocError> {
        self.jobs.push(None)?;
        self.job_files.push(JobFiles {
            first: self.files,
            has_log: false,
        })?;
        self.job_names.add(name)
    }

    /// Whether the file that was begun last may have no lines: it is the latency log of a job whose iolog came.
    pub fn may_be_empty(&self) -> bool {
        match self.file {
            FileKind::Begun(job) => matches!(self.jobs.get(job), Some(Some(_))),
            _ => false,
        }
    }

    /// The place among the files, from 0 on, of the first iolog that has requests and no latency log of its job after it.
    pub fn lacks_log(&self) -> Option<usize> {
        for (job, files) in self.jobs.iter().zip(self.job_files.iter()) {
            if let Some(job) = job
                && !job.requests.is_empty()
                && !files.has_log
            {
                return Some(files.first);
            }
        }
        None
    }

    /// What was read.
    ///
    /// # Errors
    ///
    /// `TooManyDevices` if more than 32 devices have requests, `OutOfMemory` if no memory is left.
    pub fn finish(self) -> Result<Capture, LineFault> {
        self.capture()
    }

    fn capture(&self) -> Result<Capture, LineFault> {
        let requests = all_requests(self.alloc, &self.jobs)?;
        let sizes = all_sizes(self.alloc, self.options, &self.jobs)?;
        let mut counts = self.counts;
        counts.other_devices = not_taken(&self.jobs);
        capture_of(
            self.alloc,
            self.options,
            requests,
            None,
            self.devices.list(),
            self.drivers.list(),
            &sizes,
            counts,
        )
    }

    // The first line of a file.
    fn first_line(&mut self, job: usize, line: &[u8]) -> Result<(), LineFault> {
        let is_begun = matches!(self.jobs.get(job), Some(Some(_)));
        match iolog_version(line) {
            Some(_) if is_begun => Err(LineFault::SecondIolog),
            Some(version) => self.begin_iolog(job, version),
            None if is_begun => {
                self.file = FileKind::LatencyLog(job);
                self.record(job, line)
            }
            None => Err(LineFault::NoIolog),
        }
    }

    fn begin_iolog(&mut self, number: usize, version: IologVersion) -> Result<(), LineFault> {
        let name = self.job_names.list().get(number).ok_or(LineFault::NoFile)?;
        let (driver, own) = self.drivers.number(self.options, name.as_slice())?;
        if let Some(job) = self.jobs.get_mut(number) {
            *job = Some(Job::new(self.alloc, driver, own));
        }
        self.file = FileKind::Iolog(number, version);
        Ok(())
    }

    fn iolog(&mut self, job: usize, version: IologVersion, line: &[u8]) -> Result<(), LineFault> {
        if let Some(version) = iolog_version(line) {
            self.counts.dropped_runs = self.counts.dropped_runs.saturating_add(1);
            return self.begin_iolog(job, version);
        }
        match iolog_line(version, line)? {
            IologLine::Other => Ok(()),
            IologLine::Wait(time) => self.wait(job, time),
            IologLine::Request { time, file, piece } => self.request(job, time, file, piece),
        }
    }

    fn wait(&mut self, job: usize, microseconds: u64) -> Result<(), LineFault> {
        match self.jobs.get_mut(job) {
            Some(Some(job)) => job.wait(nanoseconds(microseconds)?),
            _ => Err(LineFault::NoIolog),
        }
    }

    fn request(
        &mut self,
        job: usize,
        microseconds: Option<u64>,
        file: &[u8],
        piece: Piece,
    ) -> Result<(), LineFault> {
        let device = self.taken_device(file)?;
        let flat = self.options.priorities == Priorities::Flat;
        arrive_in(&mut self.jobs, job, microseconds, device, flat, piece)
    }

    // None: it isn't taken.
    fn taken_device(&mut self, file: &[u8]) -> Result<Option<u32>, LineFault> {
        match self.options.listed_device(file) {
            Some(name) => Ok(Some(self.devices.device(name)?)),
            None => Ok(None),
        }
    }

    fn record(&mut self, job: usize, line: &[u8]) -> Result<(), LineFault> {
        let record = latency_record(line)?;
        let by_class = self.options.priorities == Priorities::Class;
        let Some(Some(job)) = self.jobs.get_mut(job) else {
            return Err(LineFault::NoIolog);
        };
        let priority = record_priority(job, by_class, record);
        if !job.join(record, priority)? {
            self.counts.without_partner = self.counts.without_partner.saturating_add(1);
        }
        Ok(())
    }
}

impl LineReader for FioReader<'_> {
    /// Takes a line of the file that was begun last. Blank lines are passed over.
    ///
    /// # Errors
    ///
    /// `NoFile`, `NoIolog` and `SecondIolog` of files; `NotAnAction`, `NotARecord`, `BadNumber`, `NoOffset`, `Averages` and
    /// `TooManyDrivers` of lines; `OutOfMemory`.
    fn take(&mut self, line: &[u8]) -> Result<(), LineFault> {
        self.counts.lines = self.counts.lines.saturating_add(1);
        if line.trim_ascii().is_empty() {
            return Ok(());
        }
        match self.file {
            FileKind::None => Err(LineFault::NoFile),
            FileKind::Begun(job) => self.first_line(job, line),
            FileKind::Iolog(job, version) => self.iolog(job, version, line),
            FileKind::LatencyLog(job) => self.record(job, line),
        }
    }

    fn count_refused(&mut self) {
        self.counts.count_refused();
    }
}

fn arrive_in(
    jobs: &mut Vec<Option<Job>>,
    job: usize,
    microseconds: Option<u64>,
    device: Option<u32>,
    flat: bool,
    piece: Piece,
) -> Result<(), LineFault> {
    let time = match microseconds {
        None => None,
        Some(time) => Some(nanoseconds(time)?),
    };
    match jobs.get_mut(job) {
        Some(Some(job)) => Ok(job.arrive(time, device, flat, piece)?),
        _ => Err(LineFault::NoIolog),
    }
}

fn nanoseconds(microseconds: u64) -> Result<u64, LineFault> {
    microseconds
        .checked_mul(1000)
        .ok_or(LineFault::BadNumber(Field::Time))
}

// The priority that a record gives to its request, if it does.
fn record_priority(job: &Job, by_class: bool, record: LatencyRecord) -> Option<u32> {
    match (by_class, job.own_priority) {
        (true, None) => record.ioprio.map(class_priority),
        _ => None,
    }
}

fn earliest_start(jobs: &[Option<Job>]) -> u64 {
    let mut earliest = u64::MAX;
    for job in jobs {
        if let Some(job) = job {
            earliest = earliest.min(job.start.unwrap_or(u64::MAX));
        }
    }
    earliest
}

// The requests of all jobs, of one clock.
fn all_requests(alloc: Global, jobs: &[Option<Job>]) -> Result<Vec<TimedRequest>, AllocError> {
    let origin = earliest_start(jobs);
    let mut requests = Vec::new(alloc);
    for job in jobs {
        if let Some(job) = job {
            add_requests(&mut requests, job, origin)?;
        }
    }
    Ok(requests)
}

fn add_requests(
    requests: &mut Vec<TimedRequest>,
    job: &Job,
    origin: u64,
) -> Result<(), AllocError> {
    let shift = shift_of(job, origin);
    for request in job.requests.iter() {
        if request.is_taken {
            requests.push(shifted(request.request, shift))?;
        }
    }
    Ok(())
}

// How many requests are of devices that aren't taken.
fn not_taken(jobs: &[Option<Job>]) -> u64 {
    let mut sum: u64 = 0;
    for job in jobs {
        if let Some(job) = job {
            let others = job.requests.iter().filter(|request| !request.is_taken);
            sum = sum.saturating_add(others.count() as u64);
        }
    }
    sum
}

// The sizes of the started requests within the times that are taken.
fn all_sizes(alloc: Global, options: &Options, jobs: &[Option<Job>]) -> Result<Sizes, AllocError> {
    let origin = earliest_start(jobs);
    let mut sizes = Sizes::new(alloc);
    for job in jobs {
        if let Some(job) = job {
            add_sizes(&mut sizes, options, job, origin)?;
        }
    }
    Ok(sizes)
}

fn add_sizes(
    sizes: &mut Sizes,
    options: &Options,
    job: &Job,
    origin: u64,
) -> Result<(), AllocError> {
    let shift = shift_of(job, origin);
    for request in job.requests.iter() {
        let is_started = request.is_taken && request.request.started.is_some();
        if is_started && options.takes_time(request.request.arrival.saturating_add(shift)) {
            sizes.add(request.request.device, request.bytes)?;
        }
    }
    Ok(())
}

// How much later than the earliest a job started.
fn shift_of(job: &Job, origin: u64) -> u64 {
    job.start.unwrap_or(origin).saturating_sub(origin)
}

fn shifted(request: TimedRequest, shift: u64) -> TimedRequest {
    TimedRequest {
        arrival: request.arrival.saturating_add(shift),
        started: request.started.map(|time| time.saturating_add(shift)),
        ..request
    }
}
