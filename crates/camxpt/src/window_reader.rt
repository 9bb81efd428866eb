//! Cuts a capture into windows while it is read.

use crate::import_fault::ImportFault;
use crate::import_options::ImportOptions;
use capture::CaptureFault;
use capture_file::{Counts, LineFault, LineReader, SLACK, SortedReader};
use capture_windows::{Attempt, TimeSpan, Window};
use std::alloc::Global;
use window_recordings::{Cut, CutWindow, Cutter, Ending, Names, record};

/// What takes windows.
pub trait WindowSink {
    /// Takes a window, numbered from 1 on, and what was read so far.
    fn take(&mut self, number: u64, window: CutWindow, counts: Counts) -> Result<(), ImportFault>;

    /// Takes a window of which there is no recording, and why. It is refused unless the others are to go on.
    fn fail(&mut self, number: u64, fault: ImportFault) -> Result<(), ImportFault>;
}

/// Hands lines to a reader, and each window to a sink as soon as it is over.
#[derive(Drop)]
pub struct WindowReader<'a, 's, S> {
    alloc: Global,
    options: &'a ImportOptions,
    reader: SortedReader<'a>,
    sink: &'s mut S,
    cutter: Cutter,
    // Up to when the reader has to come before there is something to do. 0 before the first line that has a time.
    due: u64,
    has_window: bool,
    fault: Option<ImportFault>,
}

impl<'a, 's, S: WindowSink> WindowReader<'a, 's, S> {
    /// No window yet. Windows have so many nanoseconds, but a whole number of rounds.
    pub fn new(
        alloc: Global,
        options: &'a ImportOptions,
        window: u64,
        reader: SortedReader<'a>,
        sink: &'s mut S,
    ) -> WindowReader<'a, 's, S> {
        WindowReader {
            alloc,
            options,
            reader,
            sink,
            cutter: Cutter::new(options.round, window),
            due: 0,
            has_window: false,
            fault: None,
        }
    }

    /// Hands the sink what is left, up to the last start. Answers what was read.
    pub fn finish(mut self) -> Result<Counts, ImportFault> {
        if let Some(fault) = self.fault {
            return Err(fault);
        }
        self.set_begin()?;
        for _ in 0..u64::MAX {
            if !self.close(Ending::LastStart)? {
                break;
            }
        }
        if !self.has_window {
            return Err(CaptureFault::NothingStarted.into());
        }
        Ok(self.reader.counts())
    }

    // Does what is due at the reader's time.
    fn advance(&mut self) -> Result<(), ImportFault> {
        let time = self.reader.time();
        if self.due == 0 {
            // Heads of tables have no time.
            if time > 0 {
                self.due = self.over(time);
            }
            return Ok(());
        }
        self.set_begin()?;
        for _ in 0..u64::MAX {
            let Some(begin) = self.cutter.begin() else {
                self.due = self.over(time);
                return Ok(());
            };
            if !self.options.taken.is_before_end(begin) {
                // Nothing that arrives from now on is taken: what is left is known at the end.
                self.due = u64::MAX;
                return Ok(());
            }
            self.due = self.over(begin);
            if time < self.due {
                return Ok(());
            }
            self.close(Ending::Whole)?;
        }
        Ok(())
    }

    // When a window that begins at a time is surely over: a second after its end.
    fn over(&self, begin: u64) -> u64 {
        self.cutter.end_of(begin).saturating_add(SLACK)
    }

    // Finds where windows begin, if that isn't known.
    fn set_begin(&mut self) -> Result<(), ImportFault> {
        if self.cutter.begin().is_some() {
            return Ok(());
        }
        let attempts = self.reader.take_attempts()?;
        let devices = self.reader.devices().len();
        self.cutter.set_begin(self.alloc, &attempts, devices)?;
        self.give_back(attempts)
    }

    // All attempts go on.
    fn give_back(&mut self, attempts: Vec<Attempt>) -> Result<(), ImportFault> {
        let none = TimeSpan { from: 0, until: 0 };
        let all = Vec::from_slice(self.alloc, &attempts)?;
        Ok(self.reader.take_back(&all, none, attempts)?)
    }

    // Takes the next window; false if nothing is left that was started.
    fn close(&mut self, ending: Ending) -> Result<bool, ImportFault> {
        let (alloc, options) = (self.alloc, self.options);
        let (layout, end) = (&options.layout, options.taken.to_time);
        let attempts = self.reader.take_attempts()?;
        let names = names_of(&self.reader);
        let found = self.cutter.next(alloc, layout, names, &attempts, ending)?;
        let Some(cut) = found else {
            self.give_back(attempts)?;
            return Ok(false);
        };
        self.has_window = true;
        let made = record(alloc, layout, names, end, &cut);
        let Cut { number, window, .. } = cut;
        let Window { span, taken, .. } = window;
        self.reader.take_back(&attempts, span, taken.going_on)?;
        match made {
            Ok(window) => self.sink.take(number, window, self.reader.counts())?,
            Err(fault) => self.sink.fail(number, fault.into())?,
        }
        Ok(true)
    }
}

impl<S: WindowSink> LineReader for WindowReader<'_, '_, S> {
    fn take(&mut self, line: &[u8]) -> Result<(), LineFault> {
        self.reader.take(line)?;
        if self.options.taken.is_sorted
            && self.reader.time() >= self.due
            && let Err(fault) = self.advance()
        {
            self.fault = Some(fault);
        }
        Ok(())
    }

    fn count_refused(&mut self) {
        self.reader.count_refused();
    }

    fn is_done(&self) -> bool {
        self.fault.is_some() || self.reader.is_done()
    }
}

fn names_of<'r>(reader: &'r SortedReader<'_>) -> Names<'r> {
    let (devices, drivers) = (reader.devices(), reader.drivers());
    Names { devices, drivers }
}
