//! Makes a recording of captures.

ghost use Rattle.std.specs.Prelude.{◌≡◌};
ghost use Rattle.capture.specs.Rounds.{in_rounds};

use crate::import_fault::ImportFault;
use crate::import_note::note_on;
use crate::import_options::ImportOptions;
use crate::import_warnings::{
    SeenSlots, facts_of, tell_counts, tell_early, tell_facts, tell_refused, tell_rooms, tell_slots,
    warn_columns, warn_events, warn_missing, warn_read, warn_recorded,
};
use crate::import_words::{Kind, tolerance_of, window_of};
use crate::note::{tell_note, tell_of};
use crate::output::{closed, is_unread, standard_output};
use crate::source::{STANDARD_INPUT, is_verbose};
use crate::window_files::WindowFiles;
use crate::window_reader::{WindowReader, WindowSink};
use crate::word_fault::WordFault;
use crate::words::{count, word_at};
use cam_types::{Watched, write_whole};
use capture::{
    Capture, CaptureFault, longest_round, short_from, shortest_round, span_nanoseconds, usual_round,
};
use capture_file::{
    Capture as Read, EventForm, EventReader, FioReader, LineReader, ReadFault, Refused,
    SortedReader, TableForm, TableReader, Tolerance, read_lines,
};
use clap::ArgMatches;
use either::{Left, Right};
use recording_file::{Span, WriteFault, write_recording};
use slots::SlotsFault;
use std::alloc::{AllocError, Global};
use std::fs::File;
use std::process::ExitCode;
use views::facts_line;
use window_recordings::value_of;

/// Reads the files that the words name and prints their recording. Says on standard error what a round is, what was counted, and
/// what to beware of; or why there is none, and what helps to find that if it is asked for.
pub fn import(rt: &HostRuntime, words: &ArgMatches<'_>) -> ExitCode {
    let tolerance = tolerance_of(words, Tolerance::Few);
    let mut refused = Refused::new(rt.alloc(), tolerance.unwrap_or(Tolerance::Few));
    match tolerance.and_then(|_| imported(rt, words, &mut refused)) {
        Ok(()) => ExitCode::SUCCESS,
        Err(fault) => {
            if let ImportFault::Capture(CaptureFault::NothingStarted) = fault {
                tell_refused(rt, words, &refused);
            }
            tell_fault(rt, words, &fault, refused.text())
        }
    }
}

/// Says why a capture isn't imported, and what helps to find that if it is asked for. If a line is refused, `line` has it.
pub fn tell_fault(
    rt: &HostRuntime,
    words: &ArgMatches<'_>,
    fault: &ImportFault,
    line: &[u8],
) -> ExitCode {
    if let ImportFault::WriteFailed(Some(error)) = fault
        && is_unread(*error)
    {
        return ExitCode::SUCCESS;
    }
    match subject(words, fault) {
        Some(name) => tell_of(rt, name, fault),
        None => {
            let _ = rt.eprintln(format_args!("camxpt: {fault}"));
        }
    }
    if is_verbose(rt, words) {
        tell_note(rt, note_on(rt.alloc(), words, fault, line));
    }
    ExitCode::from(fault.status())
}

// The file or the device that a fault is of, if it is of one.
fn subject<'w>(words: &'w ArgMatches<'_>, fault: &ImportFault) -> Option<&'w str> {
    match fault {
        ImportFault::TooFewSlots(place, _) => {
            let (name, _) = word_at(words, "depth", *place).rsplit_once('=')?;
            Some(name)
        }
        _ => Some(word_at(words, "FILE", fault.file()?)),
    }
}

fn imported(
    rt: &HostRuntime,
    words: &ArgMatches<'_>,
    refused: &mut Refused,
) -> Result<(), ImportFault> {
    let options = ImportOptions::of(rt, words)?;
    let files = Files { rt, words };
    if let Some(window) = window_of(words)? {
        let mut sink = WindowFiles::new(rt, words.get_str("out").unwrap_or("."))?;
        return files.read_windows(&options, window, &mut sink, refused);
    }
    let read = files.read(&options, refused)?;
    warn_missing(rt, &options, &read);
    warn_columns(rt, &read);
    warn_events(rt, &options, &read);
    let round = round_for(rt.alloc(), options.round, &read)?;
    let round = Span {
        count: round.count.max(1),
        ..round
    };
    let capture = match Capture::of(rt.alloc(), round, &read.requests) {
        Ok(capture) => capture,
        Err(fault) => return Err(unfit(rt.alloc(), round, &read, fault)),
    };
    let rooms = rooms_of(rt.alloc(), &options, &capture, &read)?;
    let recording = options.layout.recording(
        rt.alloc(),
        &capture,
        &rooms.spare,
        &read.devices,
        &read.drivers,
    )?;
    tell_counts(rt, round, &recording, &read.counts);
    tell_refused(rt, words, refused);
    tell_early(rt, &read.counts);
    let facts = facts_of(rt.alloc(), &read)?;
    tell_facts(rt, &facts, options.kind)?;
    tell_rooms(rt, &options, &read.devices, &rooms.seen);
    tell_slots(rt, &options, &facts)?;
    warn_read(rt, round, &read);
    warn_recorded(rt, &options, &read, &recording);
    let mut out = standard_output(rt);
    if options.kind != Kind::Fio {
        let line = closed(facts_line(rt.alloc(), &facts))?;
        if write_whole(&mut Watched::new(&mut out), line.as_bytes()).is_err() {
            return Err(ImportFault::WriteFailed(out.failed()));
        }
    }
    match write_recording(rt.alloc(), &recording, &mut Watched::new(&mut out)) {
        Ok(()) => Ok(()),
        Err(WriteFault::WriteFailed) => Err(ImportFault::WriteFailed(out.failed())),
        Err(WriteFault::OutOfMemory) => Err(ImportFault::OutOfMemory(AllocError)),
    }
}

/// The files of a capture, by their names.
#[derive(Drop)]
pub struct Files<'r, 'w, 'a> {
    pub rt: &'r HostRuntime,
    pub words: &'w ArgMatches<'a>,
}

impl Files<'_, '_, '_> {
    // Reads all of them.
    fn read(&self, options: &ImportOptions, refused: &mut Refused) -> Result<Read, ImportFault> {
        if let Some(mut reader) = self.reader(options) {
            self.read_each(&mut reader, refused)?;
            return Ok(reader.finish(&options.layout.depths)?);
        }
        let mut reader = FioReader::new(self.rt.alloc(), &options.taken);
        self.read_logs(&mut reader, refused)?;
        Ok(reader.finish()?)
    }

    // A reader of their kind. None of fio's logs, which come job by job.
    fn reader<'o>(&self, options: &'o ImportOptions) -> Option<SortedReader<'o>> {
        let (alloc, taken) = (self.rt.alloc(), &options.taken);
        Some(match options.kind {
            Kind::Blkparse => {
                SortedReader::Events(EventReader::new(alloc, taken, EventForm::Blkparse))
            }
            Kind::Tracepoints => {
                SortedReader::Events(EventReader::new(alloc, taken, EventForm::Tracepoints))
            }
            Kind::Csv(unit) => {
                SortedReader::Table(TableReader::new(alloc, taken, TableForm::Csv(unit)))
            }
            Kind::Biosnoop => {
                SortedReader::Table(TableReader::new(alloc, taken, TableForm::Biosnoop))
            }
            Kind::Fio => return None,
        })
    }

    /// Hands each window of the capture to the sink as soon as it is over, also what was read before a fault. Says at the end which
    /// lines were refused, and how many requests were started before they arrived.
    pub fn read_windows<S: WindowSink>(
        &self,
        options: &ImportOptions,
        window: u64,
        sink: &mut S,
        refused: &mut Refused,
    ) -> Result<(), ImportFault> {
        if let Kind::Biosnoop = options.kind {
            return Err(ImportFault::NamedArgument(WordFault::Ended));
        }
        let Some(reader) = self.reader(options) else {
            return Err(ImportFault::NamedArgument(WordFault::Logs));
        };
        let mut cutting = WindowReader::new(self.rt.alloc(), options, window, reader, sink);
        let read = self.read_each(&mut cutting, refused);
        let cut = cutting.finish();
        read?;
        let counts = cut?;
        tell_refused(self.rt, self.words, refused);
        tell_early(self.rt, &counts);
        Ok(())
    }

    fn read_each<T: LineReader>(
        &self,
        reader: &mut T,
        refused: &mut Refused,
    ) -> Result<(), ImportFault> {
        for place in 0..count(self.words, "FILE") {
            let name = word_at(self.words, "FILE", place);
            if reader.is_done() {
                break;
            }
            if !self.read_file(place, name, reader, refused)? {
                return Err(ImportFault::File(place, ReadFault::Empty));
            }
        }
        not_too_many(refused)
    }

    // Reads fio's logs. A latency log of a job whose requests had no time to end is empty.
    fn read_logs(
        &self,
        reader: &mut FioReader<'_>,
        refused: &mut Refused,
    ) -> Result<(), ImportFault> {
        for place in 0..count(self.words, "FILE") {
            let name = word_at(self.words, "FILE", place);
            reader.begin_file(name)?;
            let may_be_empty = reader.may_be_empty();
            if !self.read_file(place, name, reader, refused)? && !may_be_empty {
                return Err(ImportFault::File(place, ReadFault::Empty));
            }
        }
        not_too_many(refused)?;
        match reader.lacks_log() {
            None => Ok(()),
            Some(place) => Err(ImportFault::NoLatencyLog(place)),
        }
    }

    // Reads the lines of a file; `-` is standard input. False if it has none but blank ones.
    fn read_file<T: LineReader>(
        &self,
        place: usize,
        name: &str,
        reader: &mut T,
        refused: &mut Refused,
    ) -> Result<bool, ImportFault> {
        let rt = self.rt;
        refused.begin_input(place);
        let mut input = if name == STANDARD_INPUT {
            Right(rt.reader())
        } else {
            match File::open(rt, name) {
                Ok(file) => Left(file),
                Err(error) => return Err(ImportFault::CannotOpen(place, error)),
            }
        };
        match read_lines(rt.alloc(), &mut input, refused, reader) {
            Ok(has_text) => Ok(has_text),
            Err(ReadFault::Line(_, _)) => {
                not_too_many(refused)?;
                Ok(true)
            }
            Err(fault) => Err(ImportFault::File(place, fault)),
        }
    }
}

// The first line that was refused is a fault if more were than may be left out.
fn not_too_many(refused: &Refused) -> Result<(), ImportFault> {
    match refused.fault() {
        None => Ok(()),
        Some((place, number, fault)) => {
            Err(ImportFault::File(place, ReadFault::Line(number, fault)))
        }
    }
}

// How long a round is: that which is given, or the usual one.
fn round_for(alloc: Global, given: Option<Span>, read: &Read) -> Result<Span, ImportFault> {
    if let Some(round) = given {
        return checked_round(round, read);
    }
    let devices = u32::try_from(read.devices.len()).unwrap_or(u32::MAX);
    match usual_round(alloc, &read.requests, devices)? {
        Some(round) => Ok(round),
        None => Err(ImportFault::NoRound(longest_round(&read.requests).unwrap_or(0))),
    }
}

// A round that is longer than the mean wait is refused.
fn checked_round(round: Span, read: &Read) -> Result<Span, ImportFault> {
    // In nanoseconds, and 0 if nobody waits.
    let wait = longest_round(&read.requests).unwrap_or(0).saturating_mul(2);
    if wait > 0 && span_nanoseconds(round) > wait {
        return Err(ImportFault::LongRound(round, wait));
    }
    Ok(round)
}

// Why the requests have no recording in these rounds. If there are too many rounds, the fault has a longer round that fits, unless
// that hides the waits.
fn unfit(alloc: Global, round: Span, read: &Read, fault: CaptureFault) -> ImportFault {
    let CaptureFault::TooManyRounds(rounds) = fault else {
        return fault.into();
    };
    match shortest_round(alloc, &read.requests) {
        Ok(fit) => {
            let fit = short_from(fit).filter(|fit| checked_round(*fit, read).is_ok());
            ImportFault::TooManyRounds(rounds, round, fit)
        }
        Err(error) => error.into(),
    }
}

// What devices had room for: the slots of each, if they can be seen, and its spare starts in each round.
#[derive(Drop)]
struct Rooms {
    seen: Vec<Option<SeenSlots>>,
    spare: Vec<Vec<u32>>,
}

fn rooms_of(
    alloc: Global,
    options: &ImportOptions,
    capture: &Capture,
    read: &Read,
) -> Result<Rooms, ImportFault>
    requires { capture.now ≡ in_rounds capture.now.unit read.now.requests.items }
{
    if read.flights.len() > u32::MAX as usize {
        return Err(CaptureFault::TooManyRequests(read.flights.len()).into());
    }
    let mut rooms = Rooms {
        seen: Vec::new(alloc),
        spare: Vec::new(alloc),
    };
    let mut number = 0u32;
    for name in &read.devices {
        let place = options
            .layout
            .depths
            .iter()
            .position(|depth| depth.0.as_str() == name.as_str());
        let depth = value_of(&options.layout.depths, name);
        match capture.room(alloc, &read.requests, &read.flights, number, depth) {
            Ok(Some(room)) => {
                let (slots, starts) = (room.slots, room.spare.total);
                rooms.seen.push(Some(SeenSlots { slots, starts }))?;
                rooms.spare.push(room.spare.row)?;
            }
            Ok(None) => {
                rooms.seen.push(None)?;
                rooms.spare.push(Vec::new(alloc))?;
            }
            Err(SlotsFault::TooFew(most)) => {
                return Err(ImportFault::TooFewSlots(place.unwrap_or(0), most));
            }
            Err(SlotsFault::OutOfMemory) => return Err(AllocError.into()),
        }
        number = number.saturating_add(1);
    }
    Ok(rooms)
}
