//! Watches a capture: what waiting cost in each window, as soon as it is over.

use crate::import_fault::{FileOption, ImportFault};
use crate::import_options::ImportOptions;
use crate::import_run::{Files, tell_fault};
use crate::import_warnings::tell_refused;
use crate::import_words::{tolerance_of, window_of};
use crate::output::{Output, print, standard_output};
use crate::window_files::{file_name, write_text, write_whole};
use crate::window_reader::WindowSink;
use crate::word_fault::WordFault;
use capture::CaptureFault;
use capture_file::{Counts, Refused, Tolerance};
use clap::ArgMatches;
use cost_plan::plan;
use recording_file::{Recording, Span};
use round_net::Net;
use std::alloc::{AllocError, Global};
use std::process::ExitCode;
use std::{fs, io};
use views::{Sums, TABLE_HEAD, Window, exposition, table_row, window_json};
use wait_causes::Explanation;
use window_recordings::CutWindow;

// How long a window is where that isn't given, in nanoseconds.
const USUAL_WINDOW: u64 = 10_000_000_000;

/// Reads the captures that the words name, and prints a row for each window and one for all of them. Says on standard error why it
/// ended early.
pub fn watch(rt: &HostRuntime, words: &ArgMatches<'_>) -> ExitCode {
    let tolerance = tolerance_of(words, Tolerance::Lenient);
    let mut refused = Refused::new(rt.alloc(), tolerance.unwrap_or(Tolerance::Lenient));
    match tolerance.and_then(|_| watched(rt, words, &mut refused)) {
        Ok(()) => ExitCode::SUCCESS,
        Err(fault) => {
            if let ImportFault::Capture(CaptureFault::NothingStarted) = fault {
                tell_refused(rt, words, &refused);
            }
            tell_fault(rt, words, &fault, refused.text())
        }
    }
}

fn watched(
    rt: &HostRuntime,
    words: &ArgMatches<'_>,
    refused: &mut Refused,
) -> Result<(), ImportFault> {
    let mut options = ImportOptions::of(rt, words)?;
    options.taken.is_sorted = !words.get_flag("unsorted");
    let window = window_of(words)?.unwrap_or(USUAL_WINDOW);
    let files = Files { rt, words };
    let most: Option<usize> = words.get_one("keep-costliest");
    let mut watch = Watcher::new(
        rt,
        words.get_flag("json"),
        words.get_str("host-name"),
        words.get_str("prometheus"),
        words.get_str("keep"),
        most,
    )?;
    let done = files.read_windows(&options, window, &mut watch, refused);
    // What was counted so far comes before what went wrong.
    let ended = watch.end();
    done?;
    ended
}

// A recording that is kept: what waiting cost in it, and its file.
#[derive(Drop)]
struct KeptFile {
    cost: u64,
    path: String,
}

// What came of the windows so far.
#[derive(Drop)]
struct Watcher<'a> {
    rt: &'a HostRuntime,
    out: Output<io::Printer<'a, HostRuntime>>,
    as_json: bool,
    host: Option<&'a str>,
    prometheus: Option<&'a str>,
    folder: Option<&'a str>,
    // How many recordings are kept at most.
    most: usize,
    kept: Vec<KeptFile>,
    all: Sums,
    has_head: bool,
    windows: u64,
    origin: u64,
    until: u64,
    round: Option<Span>,
    rounds: u64,
    carried: u64,
    refused: u64,
}

impl<'a> Watcher<'a> {
    // Nothing yet. The folder for recordings is made if it isn't there.
    fn new(
        rt: &'a HostRuntime,
        as_json: bool,
        host: Option<&'a str>,
        prometheus: Option<&'a str>,
        folder: Option<&'a str>,
        most: Option<usize>,
    ) -> Result<Watcher<'a>, ImportFault> {
        match folder {
            Some(folder) => {
                if let Err(error) = fs::create_dir_all(rt, folder) {
                    return Err(ImportFault::CannotWrite(FileOption::Keep, error));
                }
            }
            None if most.is_some() => return Err(ImportFault::NamedArgument(WordFault::Keep)),
            None => {}
        }
        Ok(Watcher {
            rt,
            out: standard_output(rt),
            as_json,
            host,
            prometheus,
            folder,
            most: most.unwrap_or(usize::MAX),
            kept: Vec::new(rt.alloc()),
            all: Sums::new(rt.alloc()),
            has_head: false,
            windows: 0,
            origin: 0,
            until: 0,
            round: None,
            rounds: 0,
            carried: 0,
            refused: 0,
        })
    }

    fn print(&mut self, text: &str) -> Result<(), ImportFault> {
        match print(&mut self.out, text) {
            Ok(()) => Ok(()),
            Err(_) => Err(ImportFault::WriteFailed(self.out.failed())),
        }
    }

    // Prints the row of a window, or of all.
    fn print_row(&mut self, window: Window<'_>, sums: &Sums) -> Result<(), ImportFault> {
        let alloc = self.rt.alloc();
        if self.as_json {
            let mut text = window_json(alloc, window, sums)?;
            text.push('\n')?;
            return self.print(&text);
        }
        let row = table_row(alloc, window, sums)?;
        if !self.has_head {
            self.has_head = true;
            self.print(TABLE_HEAD)?;
        }
        self.print(&row)
    }

    // All windows so far.
    fn whole(&self, round: Span) -> Window<'a> {
        Window {
            number: self.windows,
            is_all: true,
            origin: self.origin,
            from: self.origin,
            until: self.until,
            round,
            rounds: self.rounds,
            carried: self.carried,
            refused: self.refused,
            host: self.host,
        }
    }

    // Keeps a recording that was written, and removes the least costly one if there are too many.
    fn keep(&mut self, path: String, cost: u64) -> Result<(), ImportFault> {
        self.kept.push(KeptFile { cost, path })?;
        if self.kept.len() <= self.most {
            return Ok(());
        }
        let mut least = 0;
        for (place, file) in self.kept.iter().enumerate() {
            if self
                .kept
                .get(least)
                .is_some_and(|other| file.cost < other.cost)
            {
                least = place;
            }
        }
        if least < self.kept.len() {
            let file = self.kept.swap_remove(least);
            if let Err(error) = fs::remove_file(self.rt, &file.path) {
                return Err(ImportFault::CannotWrite(FileOption::Keep, error));
            }
        }
        Ok(())
    }

    // Prints the last row, if there was a window.
    fn end(&mut self) -> Result<(), ImportFault> {
        let Some(round) = self.round else {
            return Ok(());
        };
        let all = std::mem::replace(&mut self.all, Sums::new(self.rt.alloc()));
        self.print_row(self.whole(round), &all)
    }
}

impl WindowSink for Watcher<'_> {
    fn take(&mut self, number: u64, window: CutWindow, counts: Counts) -> Result<(), ImportFault> {
        let CutWindow {
            from,
            until,
            round,
            rounds,
            carried,
            recording,
            ..
        } = window;
        if self.windows == 0 {
            self.origin = from;
        }
        self.windows = number;
        self.until = until;
        self.round = Some(round);
        self.rounds = self.rounds.saturating_add(u64::from(rounds));
        self.carried = self.carried.saturating_add(carried);
        self.refused = counts.refused_lines;
        let mut sums = Sums::new(self.rt.alloc());
        if let Some(recording) = recording {
            let path = written(self.rt, self.folder, from, &recording)?;
            sums = sums_of(self.rt.alloc(), recording)?;
            if let Some(path) = path {
                self.keep(path, sums.whole().live)?;
            }
        }
        self.all.add(&sums)?;
        let row = Window {
            number,
            is_all: false,
            origin: self.origin,
            from,
            until,
            round,
            rounds: u64::from(rounds),
            carried,
            refused: self.refused,
            host: self.host,
        };
        self.print_row(row, &sums)?;
        if let Some(path) = self.prometheus {
            let text = exposition(self.rt.alloc(), self.whole(round), &self.all)?;
            write_text(self.rt, FileOption::Prometheus, path, &text)?;
        }
        Ok(())
    }

    fn fail(&mut self, number: u64, fault: ImportFault) -> Result<(), ImportFault> {
        if fault.status() != 3 {
            return Err(fault);
        }
        let _ = self
            .rt
            .eprintln(format_args!("camxpt: window {number}: {fault}"));
        Ok(())
    }
}

// Writes the recording of a window that begins then, if recordings are kept in a folder. Answers its path.
fn written(
    rt: &HostRuntime,
    folder: Option<&str>,
    from: u64,
    recording: &Recording,
) -> Result<Option<String>, ImportFault> {
    let Some(folder) = folder else {
        return Ok(None);
    };
    let alloc = rt.alloc();
    let name = file_name(alloc, from)?;
    let path = format!(in alloc; "{folder}/{name}")?;
    write_whole(rt, FileOption::Keep, &path, recording)?;
    Ok(Some(path))
}

// What the waiting in a recording cost.
fn sums_of(alloc: Global, recording: Recording) -> Result<Sums, AllocError> {
    let net = Net::of_recording(alloc, &recording)?;
    let best = plan(alloc, &net)?;
    let paced = plan(alloc, &net.at_pace(alloc)?)?;
    let (pace, best) = (&paced.schedule, &best.schedule);
    let explanation = Explanation::of_recording(alloc, recording, &net, pace, best)?;
    Sums::of(alloc, &explanation)
}
