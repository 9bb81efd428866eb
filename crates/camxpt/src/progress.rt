//! Shows on a terminal how far a run, a sweep or an audit is.

use cost_plan::{Done, PlanProgress};
use sim_worker::Progress;
use std::alloc::AllocError;
use std::fmt::Display;
use std::io;
use std::io::{Read, Write};
use std::sync::atomic::{AtomicU64, Ordering};
use std::time::Instant;
use sweep::{Runner, Tally};
use trace_file::Script;
use xpt_state::Look;

// How many milliseconds it is old when it is first shown, and how many lie between two lines at least.
const FIRST: u64 = 1_000;

const BETWEEN: u64 = 100;

// When the next line is due after the last.
const NEVER: u64 = u64::MAX;

/// A line on standard error that says how far a run, a sweep or an audit is, if that is a terminal and it takes more than a second.
#[derive(Drop)]
pub struct ProgressLine<'a> {
    rt: &'a HostRuntime,
    // When it began, if it is to be shown.
    start: Option<Instant>,
    // When the next line is due, in milliseconds from the start.
    due: AtomicU64,
}

impl<'a> ProgressLine<'a> {
    /// The line of what begins now.
    pub fn new(rt: &'a HostRuntime, on_terminal: bool) -> ProgressLine<'a> {
        let start = if on_terminal {
            Instant::now(rt).ok()
        } else {
            None
        };
        ProgressLine {
            rt,
            start,
            due: AtomicU64::new(FIRST),
        }
    }

    /// Clears the line, if it is shown. No other is shown after it.
    pub fn clear(&self) {
        let due = self.due.swap(NEVER, Ordering::Relaxed);
        if due != FIRST && due != NEVER {
            let _ = self.rt.eprint("\r\u{1b}[K");
        }
    }

    // Whether a line is due. If one is, the next is due some time after.
    fn is_due(&self) -> bool {
        let Some(elapsed) = self.elapsed() else {
            return false;
        };
        if elapsed < self.due.load(Ordering::Relaxed) {
            return false;
        }
        self.due
            .store(elapsed.saturating_add(BETWEEN), Ordering::Relaxed);
        true
    }

    // The milliseconds since it began, if it is to be shown.
    fn elapsed(&self) -> Option<u64> {
        let elapsed = self.start?.elapsed(self.rt).ok()?;
        u64::try_from(elapsed.as_millis()).ok()
    }

    // Shows how far it is, if a line is due.
    fn put<T: Display + Drop>(&self, how_far: T) {
        if self.is_due() {
            let _ = self.rt.eprint(format_args!("\r\u{1b}[Kcamxpt: {how_far}"));
        }
    }
}

impl Progress for ProgressLine<'_> {
    fn show(&self, look: Look) {
        let left = u64::from(look.waiting) + u64::from(look.in_flight) + u64::from(look.cases);
        self.put(format_args!(
            "round {}, {} events, {left} CCBs left",
            look.round, look.length
        ));
    }
}

impl PlanProgress for ProgressLine<'_> {
    fn begun(&self, _adapter: u32) {}

    fn mended(&self, mended: u32, rounds: u32) {
        if mended >= rounds {
            self.put("checking the plan");
        } else {
            let part = u64::from(mended) * 100 / u64::from(rounds.max(1));
            self.put(format_args!("mended some {part} %"));
        }
    }

    fn planned(&self, done: Done) {
        if done.planned >= done.parts {
            self.put("checking the plan");
        } else {
            self.put(format_args!("planned some {} %", hundredths(done)));
        }
    }
}

// How many hundredths of a plan are made, about: each level of a part takes twice as long as the one before.
fn hundredths(done: Done) -> u64 {
    let of_next = 100u64 >> done.levels_left.min(7);
    (u64::from(done.planned) * 100 + of_next) / u64::from(done.parts.max(1))
}

/// A reader whose line says how much of it was read.
#[derive(Drop)]
pub struct CountedReader<'a, 'b, S> {
    source: S,
    line: &'a ProgressLine<'b>,
    bytes: u64,
}

impl<'a, 'b, S> CountedReader<'a, 'b, S> {
    /// A reader of which nothing was read yet.
    pub fn new(source: S, line: &'a ProgressLine<'b>) -> CountedReader<'a, 'b, S> {
        CountedReader {
            source,
            line,
            bytes: 0,
        }
    }
}

impl<S: Read> Read for CountedReader<'_, '_, S> {
    ghost remaining = { λ s. S.remaining s.source };

    /// Reads as the source does.
    fn read(&mut self, buf: &mut [u8]) -> io::Result<usize> {
        self.line
            .put(format_args!("read {} MB", self.bytes / 1_000_000));
        let count = self.source.read(buf)?;
        self.bytes = self.bytes.saturating_add(count as u64);
        Ok(count)
    }
}

/// A writer before whose first bytes the line is cleared.
#[derive(Drop)]
pub struct CountedWriter<'a, 'b, W> {
    device: W,
    line: &'a ProgressLine<'b>,
}

impl<'a, 'b, W> CountedWriter<'a, 'b, W> {
    /// A writer to which nothing was written yet.
    pub fn new(device: W, line: &'a ProgressLine<'b>) -> CountedWriter<'a, 'b, W> {
        CountedWriter { device, line }
    }
}

impl<W: Write> Write for CountedWriter<'_, '_, W> {
    ghost contents = { λ w. W.contents w.device };

    /// Writes as the device does.
    fn write(&mut self, buf: &[u8]) -> io::Result<usize> {
        self.line.clear();
        self.device.write(buf)
    }

    /// Flushes as the device does.
    fn flush(&mut self) -> io::Result<()> {
        self.device.flush()
    }
}

/// The line of a table of changes, which says how many rows are made.
#[derive(Drop)]
pub struct CountedRows<'a, 'b> {
    line: &'a ProgressLine<'b>,
    rows: usize,
    made: AtomicU64,
}

impl<'a, 'b> CountedRows<'a, 'b> {
    /// The line of so many rows, of which none is made.
    pub fn new(line: &'a ProgressLine<'b>, rows: usize) -> CountedRows<'a, 'b> {
        CountedRows {
            line,
            rows,
            made: AtomicU64::new(0),
        }
    }
}

impl what_if::Progress for CountedRows<'_, '_> {
    fn row_made(&self) {
        let made = self.made.fetch_add(1, Ordering::Relaxed).saturating_add(1);
        self.line.put(format_args!("{made} of {} rows", self.rows));
    }
}

/// Who runs scripts as another does, and whose line says how many runs are over.
#[derive(Drop)]
pub struct CountedRunner<'a, 'b, W> {
    /// The other.
    pub runner: W,
    /// The line.
    pub line: &'a ProgressLine<'b>,
    /// How many runs there are in all.
    pub runs: u32,
    /// How many of them are over.
    pub over: AtomicU64,
}

impl<W: Runner> Runner for CountedRunner<'_, '_, W> {
    ghost comes_to = { λ r. W.comes_to r.runner };

    /// Runs as the runner does.
    fn run(&self, script: &Script, seed: u64) -> Result<Tally, AllocError> {
        let tally = self.runner.run(script, seed);
        let before = self.over.fetch_add(1, Ordering::Relaxed);
        let over = before.saturating_add(1);
        self.line.put(format_args!("{over} of {} runs", self.runs));
        tally
    }
}
