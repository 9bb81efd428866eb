//! What is read from a capture.

use crate::flights::DeviceSlots;
use crate::lost_events::Lost;
use capture::{DeviceFlight, TimedRequest};

/// The requests of a capture, by arrival, and of equal arrivals in the order of the input.
#[derive(Drop)]
pub struct Capture {
    /// The requests. Their drivers and devices are places in the two lists below.
    pub requests: Vec<TimedRequest>,
    /// What held a slot of a device and for how long, also of requests that aren't taken: they arrived at other times, or before the
    /// capture began. Each end is known or guessed: what is completed ends by its completion, and all else as one that was put back.
    /// None of fio's logs, which don't know when a request was started.
    pub flights: Vec<DeviceFlight>,
    /// The slots of each device, by its number. None of fio's logs.
    pub slots: Vec<DeviceSlots>,
    /// The devices that have requests, in the order in which the input names them: `8,16` (major and minor number), or the
    /// name of a file. At most 32.
    pub devices: Vec<String>,
    /// The drivers that have requests, in the order in which the input names them: processes or jobs. At most 256.
    pub drivers: Vec<String>,
    /// Of each device, whether its started requests differ much in size: the largest is more than 16 times as large as the lower
    /// median. A table may have no sizes.
    pub uneven: Vec<bool>,
    /// The names of a table's columns that aren't read.
    pub other_columns: Vec<String>,
    /// The names of devices that aren't taken, the first 32 of them.
    pub others: Vec<String>,
    /// What was read and what was left out.
    pub counts: Counts,
}

/// How much was read, and how much was left out.
#[derive(Clone, Copy, Default)]
pub struct Counts {
    /// Lines, also blank and refused ones.
    pub lines: u64,
    /// Requests of the capture. Each attempt is one.
    pub requests: u64,
    /// Requests of fio's logs that were never started.
    pub never_started: u64,
    /// Requests that wait to be started when the capture ends, and how long the one does that waited longest, in nanoseconds.
    pub still_waiting: u64,
    pub longest_wait: u64,
    /// Requests that were started and whose arrival isn't in the input.
    pub without_arrival: u64,
    /// Arrivals at devices that aren't taken.
    pub other_devices: u64,
    /// Requests that arrive outside the times that are taken.
    pub other_times: u64,
    /// Requests that were completed with no start in the input, on devices that have starts. They are left out.
    pub lost_starts: u64,
    /// Completions of requests that were in flight when the capture began.
    pub from_before: u64,
    /// Requests that were started at devices with completions, and those of them whose completion is missing.
    pub started: u64,
    pub missing_completions: u64,
    /// Events that the tracer lost, and how many there were in all if it says so.
    pub lost_events: u64,
    pub written_events: u64,
    /// Arrivals of devices that are taken, and their starts.
    pub arrivals: u64,
    pub starts: u64,
    /// Whether several processes have requests.
    pub has_processes: bool,
    /// Devices where nothing was started (dm, md). They are left out.
    pub devices_without_starts: u64,
    /// The requests of those devices.
    pub requests_without_starts: u64,
    /// Requests that were started at most 100 us before they arrived, by the clocks of two processors. They arrived when they were started.
    pub early_starts: u64,
    /// Lines that were refused and left out.
    pub refused_lines: u64,
    /// Records of fio's latency logs that belong to no request of the iolog.
    pub without_partner: u64,
    /// Earlier runs of fio in an iolog to which a later one was appended. They are left out.
    pub dropped_runs: u64,
}

impl Counts {
    /// Counts a line that was refused and is left out.
    pub(crate) fn count_refused(&mut self) {
        self.refused_lines = self.refused_lines.saturating_add(1);
    }

    /// Counts what a tracer says that it lost.
    pub(crate) fn count_lost(&mut self, lost: Lost) {
        self.lost_events = self.lost_events.saturating_add(lost.lost);
        self.written_events = self.written_events.saturating_add(lost.written);
    }
}
