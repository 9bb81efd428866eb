//! Why the program failed, and the exit status that says so.

use crate::change_option::ChangeOption;
use crate::source::Argument;
use crate::words::Number;
use audit_report::AuditFault;
use conversions::ScriptFault;
use recording_file::{RecordingFault, RequestError};
use report_text::ReportFault;
use sim_worker::LiveFault;
use std::alloc::AllocError;
use std::process::ExitCode;
use std::{fmt, io};
use sweep::PlanFault;
use thiserror::Error;
use trace_file::{TraceFault, WriteFault};

/// Why the program didn't do what its words asked. Its text is the line on standard error, after the program's name.
#[derive(Clone, Copy, Debug, Error)]
pub enum Failure {
    /// A word of the command line isn't UTF-8.
    WordNotUtf8,
    /// The files of these two arguments are to be read from standard input, which there is once.
    StandardInputTwice(Argument, Argument),
    /// No words are completed for a shell of this name.
    NoShell,
    /// The rounds to be drawn aren't two rounds of which the first is from 1 on and not after the second.
    NoRange,
    /// Rounds after the last one, which is this, are to be drawn.
    NoSuchRounds(u32),
    /// The word at this place among those of `--slo` isn't of its form.
    NoLimit(usize),
    /// The word at this place among them names a driver that isn't there.
    NoSuchDriver(usize),
    /// The input of limits in time doesn't say how long a round is.
    NoTimes,
    /// It doesn't say when requests were completed.
    NoCompletions,
    /// The word at this place among those of this option isn't of its form.
    NoChange(ChangeOption, usize),
    /// The word at this place among them names what isn't there.
    NoSuchResource(ChangeOption, usize),
    /// By an order so many requests aren't sent within the rounds, and so many within them but after their last one.
    NotInTime(u32, u32),
    /// A request that can't be started in another round.
    Request(#[from] RequestError),
    /// A sweep by no seed, of more runs than there may be, or without memory for it.
    Sweep(#[from] PlanFault),
    /// A load that is more than a script may have.
    Load(#[from] ScriptFault),
    /// A file that can't be opened: the one that this argument names, and the system's reason.
    CannotOpen(Argument, io::Error),
    /// A write to standard output that failed, and the system's reason.
    CannotWrite(io::Error),
    /// A number after this option or argument that isn't of digits alone.
    NoNumber(Number),
    /// A text that isn't what it has to be, a read or write that failed, or no memory.
    Audit(#[from] AuditFault),
    /// A run on many threads that gave nothing.
    Live(#[from] LiveFault),
}

impl fmt::Display for Failure {
    fn fmt<W: fmt::Write>(&self, f: &mut fmt::Formatter<W>) -> fmt::Result {
        f.write_str(match self {
            Failure::WordNotUtf8 => "a word of the command line isn't UTF-8",
            Failure::StandardInputTwice(one, other) => return write!(
                f,
                "only one of {} and {} can be standard input",
                one.word(),
                other.word()
            ),
            Failure::NoShell => "only bash, zsh and fish complete words",
            Failure::NoRange => "--rounds takes A-B, rounds from A to B, as 412-500",
            Failure::NoSuchRounds(last) => return write!(f, "--rounds: the last round is {last}"),
            Failure::NoLimit(_) =>
                "--slo takes driver:NAME, level:N or all, and then :pN=TIME, as all:p99=5ms",
            Failure::NoSuchDriver(_) => "no driver has this name",
            Failure::NoTimes => "--slo: the input doesn't say how long a round is",
            Failure::NoCompletions =>
                "--slo: the recording doesn't say when requests were completed",
            Failure::NoChange(option, _) => return write!(f, "{}", option.form()),
            Failure::NoSuchResource(option, _) => return write!(
                f,
                "no {} has this name or number",
                option.what()
            ),
            Failure::NotInTime(unsent, late) => return write!(
                f,
                "{unsent} not sent within the rounds, {late} after their last one"
            ),
            Failure::Request(fault) => return write!(f, "{fault}"),
            Failure::Sweep(fault) => return write!(f, "{fault}"),
            Failure::Load(fault) => return write!(f, "{fault}"),
            Failure::CannotOpen(argument, _) => return write!(
                f,
                "cannot open{}",
                argument.of_two()
            ),
            Failure::CannotWrite(_) => "write failed",
            Failure::NoNumber(number) => return write!(
                f,
                "{} takes a number, of digits alone",
                number.word()
            ),
            Failure::Audit(fault) => return write!(f, "{fault}"),
            Failure::Live(fault) => return write!(f, "{fault}"),
        })
    }
}

impl Failure {
    /// The exit status: 2 for refused words, 3 for an input that is refused, 4 for a file that can't be opened and a
    /// read or write that failed, 5 where there is no memory left, 6 where threads couldn't be started or what they did
    /// isn't a run of the script.
    pub fn exit_code(&self) -> ExitCode {
        ExitCode::from(match self {
            Failure::WordNotUtf8 | Failure::StandardInputTwice(_, _) | Failure::NoShell => 2,
            Failure::NoRange | Failure::NoSuchRounds(_) | Failure::NoNumber(_) => 2,
            Failure::NoLimit(_) | Failure::NoChange(_, _) | Failure::NoSuchResource(_, _) => 2,
            Failure::NoSuchDriver(_) | Failure::NoTimes | Failure::NoCompletions => 3,
            Failure::NotInTime(_, _) | Failure::Request(RequestError::Illegal(_)) => 3,
            Failure::CannotOpen(_, _) | Failure::CannotWrite(_) => 4,
            Failure::Sweep(PlanFault::OutOfMemory)
            | Failure::Load(ScriptFault::OutOfMemory)
            | Failure::Request(RequestError::OutOfMemory)
            | Failure::Live(LiveFault::OutOfMemory) => 5,
            Failure::Sweep(_) => 2,
            Failure::Load(_) => 3,
            Failure::Live(_) => 6,
            Failure::Audit(fault) => audit_status(fault),
        })
    }
}

fn audit_status(fault: &AuditFault) -> u8 {
    match fault {
        AuditFault::WriteFailed
        | AuditFault::Trace(TraceFault::ReadFailed)
        | AuditFault::Recording(RecordingFault::ReadFailed)
        | AuditFault::Report(ReportFault::ReadFailed) => 4,
        AuditFault::OutOfMemory
        | AuditFault::Trace(TraceFault::OutOfMemory)
        | AuditFault::Recording(RecordingFault::OutOfMemory)
        | AuditFault::Report(ReportFault::OutOfMemory) => 5,
        AuditFault::Trace(_)
        | AuditFault::Recording(_)
        | AuditFault::Report(_)
        | AuditFault::Unsent(_) => 3,
    }
}

impl From<WriteFault> for Failure {
    fn from(fault: WriteFault) -> Failure {
        Failure::Audit(match fault {
            WriteFault::WriteFailed => AuditFault::WriteFailed,
            WriteFault::OutOfMemory => AuditFault::OutOfMemory,
        })
    }
}

impl From<AllocError> for Failure {
    fn from(_error: AllocError) -> Failure {
        Failure::Audit(AuditFault::OutOfMemory)
    }
}
