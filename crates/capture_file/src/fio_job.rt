//! A job of fio.

use crate::fio_lines::{Direction, LatencyRecord, Piece};
use crate::line_fault::{Field, LineFault};
use crate::priority::{LAST, LATE, SOON, USUAL};
use crate::queues::Queues;
use capture::TimedRequest;
use std::alloc::{AllocError, Global};

// Milliseconds from here on are those since 1970, and not those since the job's start: 1973.
const FIRST_EPOCH_MILLISECOND: u64 = 100_000_000_000;

/// A request of a job. If its device isn't taken, it only says when the job started.
#[derive(Clone, Copy)]
pub struct JobRequest {
    pub request: TimedRequest,
    pub bytes: u64,
    pub is_taken: bool,
}

/// A job: its requests, and which of them wait for their records.
#[derive(Drop)]
pub struct Job {
    driver: u8,
    pub own_priority: Option<u32>,
    pub requests: Vec<JobRequest>,
    waiting: Queues<Piece>,
    // The time in nanoseconds since its start, where its iolog has waits.
    clock: u64,
    /// When it started, in nanoseconds since 1970: the earliest that a record says.
    pub start: Option<u64>,
}

impl Job {
    /// A job without requests.
    pub fn new(alloc: Global, driver: u8, own_priority: Option<u32>) -> Job {
        Job {
            driver,
            own_priority,
            requests: Vec::new(alloc),
            waiting: Queues::new(alloc),
            clock: 0,
            start: None,
        }
    }

    /// Nanoseconds go by.
    ///
    /// # Errors
    ///
    /// `BadNumber` if the time has no number then.
    pub fn wait(&mut self, time: u64) -> Result<(), LineFault> {
        match self.clock.checked_add(time) {
            None => Err(LineFault::BadNumber(Field::Time)),
            Some(clock) => {
                self.clock = clock;
                Ok(())
            }
        }
    }

    /// Adds a request that arrives: at a time in nanoseconds or else now, of a device, if that is taken.
    pub fn arrive(
        &mut self,
        time: Option<u64>,
        device: Option<u32>,
        flat: bool,
        piece: Piece,
    ) -> Result<(), AllocError> {
        let usual = if flat {
            USUAL
        } else {
            direction_priority(piece.direction)
        };
        let slot = self.requests.len();
        let arrival = time.unwrap_or(self.clock);
        let priority = self.own_priority.unwrap_or(usual);
        self.requests.push(JobRequest {
            request: TimedRequest {
                arrival,
                started: None,
                retried: None,
                completed: None,
                driver: self.driver,
                device: device.unwrap_or(0),
                priority,
            },
            bytes: piece.bytes,
            is_taken: device.is_some(),
        })?;
        self.waiting.push(piece, slot)
    }

    /// Joins a record to the first of the requests that it may belong to. False if there is none.
    ///
    /// # Errors
    ///
    /// `BadNumber` if the completion has no number.
    pub fn join(
        &mut self,
        record: LatencyRecord,
        priority: Option<u32>,
    ) -> Result<bool, LineFault> {
        let Some(slot) = self.waiting.pop(&record.piece) else {
            return Ok(false);
        };
        let Some(JobRequest { request, .. }) = self.requests.get_mut(slot) else {
            return Ok(false);
        };
        let Some(completed) = request.arrival.checked_add(record.latency) else {
            return Err(LineFault::BadNumber(Field::Latency));
        };
        request.started = Some(completed);
        request.priority = priority.unwrap_or(request.priority);
        if let Some(start) = stated_start(record.milliseconds, completed) {
            self.start = Some(self.start.map_or(start, |earliest| earliest.min(start)));
        }
        Ok(true)
    }
}

// When a job started, if a request that it completed so long after that ended at these milliseconds since 1970.
fn stated_start(milliseconds: u64, completed: u64) -> Option<u64> {
    if milliseconds < FIRST_EPOCH_MILLISECOND {
        return None;
    }
    milliseconds.checked_mul(1_000_000)?.checked_sub(completed)
}

// The priority of a direction. Nobody is known to wait for a write.
fn direction_priority(direction: Direction) -> u32 {
    match direction {
        Direction::Read => SOON,
        Direction::Write => LATE,
        Direction::Trim => LAST,
    }
}

/// The job of a file: its name without folders, and without `.iolog`, `_lat.log` or `_lat.N.log`.
pub fn job_name(path: &[u8]) -> &[u8] {
    let file = match path.iter().rposition(|byte| *byte == b'/') {
        None => path,
        Some(slash) => path
            .get(slash..)
            .and_then(|rest| rest.get(1..))
            .unwrap_or(path),
    };
    if let Some(name) = file.strip_suffix(b".iolog") {
        return name;
    }
    match file.strip_suffix(b".log") {
        None => file,
        Some(stem) => {
            let stem = without_number(stem);
            stem.strip_suffix(b"_lat").unwrap_or(stem)
        }
    }
}

// Without a point and digits at the end.
fn without_number(stem: &[u8]) -> &[u8] {
    match stem.iter().rposition(|byte| *byte == b'.') {
        None => stem,
        Some(point) => match stem.split_at_checked(point) {
            Some((front, rest)) if is_number_suffix(rest) => front,
            _ => stem,
        },
    }
}

fn is_number_suffix(text: &[u8]) -> bool {
    text.len() > 1
        && text
            .iter()
            .all(|byte| *byte == b'.' || byte.is_ascii_digit())
}
