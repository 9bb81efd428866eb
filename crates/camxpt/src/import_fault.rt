//! Why a capture isn't imported.

use crate::import_span::{Seconds, Typed};
use crate::word_fault::WordFault;
use capture::{CaptureFault, short_within, span_nanoseconds};
use capture_file::{LineFault, ReadFault};
use capture_windows::WindowFault;
use recording_file::Span;
use std::alloc::AllocError;
use std::{fmt, io};
use thiserror::Error;
use window_recordings::CutFault;

/// An option that names a file or a folder to write to.
#[derive(Clone, Copy, Debug)]
pub enum FileOption {
    Out,
    Keep,
    Prometheus,
}

impl fmt::Display for FileOption {
    fn fmt<W: fmt::Write>(&self, f: &mut fmt::Formatter<W>) -> fmt::Result {
        f.write_str(match self {
            FileOption::Out => "out",
            FileOption::Keep => "keep",
            FileOption::Prometheus => "prometheus",
        })
    }
}

/// Why a capture isn't imported. Its text is the line on standard error, after the program's name and, of a file, the file's.
#[derive(Clone, Copy, Debug, Error)]
pub enum ImportFault {
    /// An option whose word hasn't its form, or contradicts another one, and how.
    #[error("{0}")]
    NamedArgument(WordFault),
    /// A file that can't be opened: its place among the files.
    #[error("cannot open")]
    CannotOpen(usize, io::Error),
    /// A file that isn't what it has to be, or can't be read: its place among the files.
    #[error("{1}")]
    File(usize, ReadFault),
    /// An iolog of fio without a latency log of its job: its place among the files.
    #[error("no latency log of this job comes after it: set write_lat_log in the job, and give its NAME_lat.log here")]
    NoLatencyLog(usize),
    /// The files together aren't what they have to be.
    #[error("{0}")]
    Files(#[from] LineFault),
    /// There is no recording of these requests.
    #[error("{0}{help}", help = help(.0))]
    Capture(#[from] CaptureFault),
    /// A round that hides the waits: it is longer than the mean wait, which comes second, in nanoseconds.
    #[error(fmt = long_round)]
    LongRound(Span, u64),
    /// Each round that doesn't hide the waits makes more than 65,535 rounds. The longest of them in nanoseconds.
    #[error("no usual round: half of the mean wait is {0} ns, and 65,535 rounds of that are {all} s: take no more of the capture by --from-time and --to-time, or a longer round by --round", all = most_seconds(*.0))]
    NoRound(u64),
    /// How many rounds of a span there are, more than 65,535; and a round that would fit, unless that hides the waits.
    #[error(fmt = too_many_rounds)]
    TooManyRounds(u128, Span, Option<Span>),
    /// A device had so many requests in flight, more than the `--depth` of this place gives it slots.
    #[error("{1} were in flight")]
    TooFewSlots(usize, u32),
    /// No window is taken of these requests.
    #[error("{0}")]
    Window(WindowFault),
    /// So many requests were started by the end of no window.
    #[error("{0} requests wait to be started, and at most 1,048,576 are kept: take fewer by --device, or a longer window by --window")]
    TooManyOpen(usize),
    /// A file can't be written that this option asks for, and the system's reason.
    #[error("--{0}: cannot write: {1}")]
    CannotWrite(FileOption, io::Error),
    /// More adapters than there may be.
    #[error("9 adapters, and a recording has at most 8: devices without --host share one after the last that is given")]
    TooManyAdapters,
    /// A write failed, and the system's reason.
    #[error("write failed")]
    WriteFailed(Option<io::Error>),
    /// There is no memory left.
    #[error("out of memory")]
    OutOfMemory(#[from(alloc)] AllocError),
}

impl ImportFault {
    /// The exit status: 2 for refused words, 3 for refused files, 4 for what can't be opened, read or written, 5 for want of
    /// memory.
    pub fn status(&self) -> u8 {
        match self {
            ImportFault::NamedArgument(_) => 2,
            ImportFault::CannotOpen(_, _)
            | ImportFault::File(_, ReadFault::ReadFailed(_))
            | ImportFault::CannotWrite(_, _)
            | ImportFault::WriteFailed(_) => 4,
            ImportFault::File(_, ReadFault::OutOfMemory)
            | ImportFault::Files(LineFault::OutOfMemory)
            | ImportFault::Capture(CaptureFault::OutOfMemory)
            | ImportFault::Window(WindowFault::OutOfMemory)
            | ImportFault::OutOfMemory(_) => 5,
            _ => 3,
        }
    }

    /// The place of the file that it is of, if it is of one.
    pub fn file(&self) -> Option<usize> {
        match self {
            ImportFault::CannotOpen(file, _)
            | ImportFault::File(file, _)
            | ImportFault::NoLatencyLog(file) => Some(*file),
            _ => None,
        }
    }
}

// What helps against a fault of the requests.
fn help(fault: &CaptureFault) -> &'static str {
    match fault {
        CaptureFault::TooManyRequests(_) => {
            ": take fewer by --device, or by --from-time and --to-time"
        }
        CaptureFault::TooManyInRound(_, _) => ": take a shorter round by --round",
        _ => "",
    }
}

// How long as many rounds take as a recording may have, of so many nanoseconds each.
fn most_seconds(round: u64) -> Seconds {
    Seconds(u128::from(round) * 65_535)
}

fn long_round<W: fmt::Write>(round: &Span, wait: &u64, f: &mut fmt::Formatter<W>) -> fmt::Result {
    write!(
        f,
        "rounds of {} hide the waits, which take {wait} ns on the average",
        Typed(*round)
    )?;
    match short_within(*wait) {
        None => f.write_str(": take at most that, better half of it"),
        Some(most) => write!(
            f,
            ": take at most --round {}, better half of it",
            Typed(most)
        ),
    }
}

fn too_many_rounds<W: fmt::Write>(
    rounds: &u128,
    round: &Span,
    fit: &Option<Span>,
    f: &mut fmt::Formatter<W>,
) -> fmt::Result {
    write!(
        f,
        "{rounds} rounds of {}, and a recording has at most 65,535: take ",
        Typed(*round)
    )?;
    if let Some(fit) = fit {
        write!(f, "--round {}, or ", Typed(*fit))?;
    }
    write!(
        f,
        "at most {} s of the capture by --from-time and --to-time",
        most_seconds(span_nanoseconds(*round))
    )
}

impl From<CutFault> for ImportFault {
    fn from(fault: CutFault) -> ImportFault {
        match fault {
            CutFault::Capture(fault) => ImportFault::Capture(fault),
            CutFault::TooManyAdapters => ImportFault::TooManyAdapters,
            CutFault::Window(fault) => ImportFault::Window(fault),
            CutFault::TooFewSlots(place, most) => ImportFault::TooFewSlots(place, most),
            CutFault::TooManyDevices(count) => ImportFault::Files(LineFault::TooManyDevices(count)),
            CutFault::TooManyOpen(count) => ImportFault::TooManyOpen(count),
            CutFault::OutOfMemory => ImportFault::OutOfMemory(AllocError),
        }
    }
}
