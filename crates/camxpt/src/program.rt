//! Runs the subcommand that the command line asks for.

use crate::change_words::{AskedRow, asked_rows};
use crate::compare_run::compare;
use crate::completion::script;
use crate::failure::Failure;
use crate::import_run::import;
use crate::limits::{Limit, limits_of};
use crate::note::{
    STANDARD_OUTPUT, capture_note, is_bad_header, note_on, reason_note, tell, tell_note, tell_of,
};
use crate::output::{Output, is_unread, print, standard_output};
use crate::progress::ProgressLine;
use crate::proof_run::prove;
use crate::schedule_run::NewOrder;
use crate::script_run::ScriptRun;
use crate::shell::Shell;
use crate::source::{Argument, Both, Source, asks_more, input, is_verbose, open, open_both};
use crate::subcommands::command;
use crate::sweep_run::sweep_script;
use crate::trace_run::TraceRun;
use crate::view::{View, range_of};
use crate::watch_run::watch;
use crate::what_if_run::WhatIfRun;
use crate::words::{check_numbers, word_at, words};
use audit_report::AuditFault;
use clap::ArgMatches;
use clap::error::ErrorKind;
use sim_worker::Ending;
use std::alloc::{AllocError, Global};
use std::io;
use std::io::Read;
use std::process::ExitCode;
use std::sync::Wait;
use std::thread::Threads;
use views::shown_lines;

/// How many stays, freezes or changes are listed where no number is given.
const TOP: usize = 10;

/// How many waits of a stay are listed where not all are asked for.
const MAX_WAITS: usize = 64;

/// The exit status of a run that ended before all was done, where that is asked for.
const NOT_DRAINED: u8 = 7;

/// Does what the words of the command line ask, and says on standard error why it didn't. If that is a terminal, a long run
/// shows there how far it is.
pub fn run<T: Threads + Wait + Sync>(rt: &HostRuntime, threads: &T, on_terminal: bool) -> ExitCode {
    match read_and_obey(rt, threads, on_terminal) {
        Ok(status) => status,
        Err(failure) => tell(rt, &failure),
    }
}

fn read_and_obey<T: Threads + Wait + Sync>(
    rt: &HostRuntime,
    threads: &T,
    on_terminal: bool,
) -> Result<ExitCode, Failure> {
    let words = words(rt)?;
    let command = command(rt.alloc())?;
    match command.try_get_matches_from(words.as_slice()) {
        Ok(matches) => obey(rt, threads, &matches, on_terminal),
        Err(error) if error.kind() == ErrorKind::OutOfMemory => {
            Err(Failure::Audit(AuditFault::OutOfMemory))
        }
        Err(error) => show(rt, &error),
    }
}

// Prints help or the version, or why the words are refused: then the status is 2, whether or not this can be printed. It may have
// a word as it was given, whose control characters are escaped.
fn show(rt: &HostRuntime, error: &clap::Error) -> Result<ExitCode, Failure> {
    if error.use_stderr() {
        let text = format!(in rt.alloc(); "{error}")?;
        let text = with_limit(rt.alloc(), &text)?;
        let _ = rt.eprint(&shown_lines(rt.alloc(), &text)?);
        return Ok(ExitCode::from(2));
    }
    match error.print(rt) {
        Ok(()) => Ok(ExitCode::SUCCESS),
        Err(reason) if is_unread(reason) => Ok(ExitCode::SUCCESS),
        Err(reason) => {
            let failure = Failure::CannotWrite(reason);
            Ok(tell_reason(rt, &failure, STANDARD_OUTPUT, reason, asks_more(rt)))
        }
    }
}

// What clap says of a number that no type holds.
const TOO_LARGE: &str = "number too large to fit in target type";

// Why words are refused; of a number that is too large with the most that it may be.
fn with_limit(alloc: Global, text: &str) -> Result<String, AllocError> {
    let Some((before, after)) = text.split_once(TOO_LARGE) else {
        return String::from_str(alloc, text);
    };
    let most = if before.contains("--seeds") {
        u64::from(u32::MAX)
    } else {
        u64::MAX
    };
    format!(in alloc; "{before}the most is {most}{after}")
}

// Says why the program failed, and after that line the system's reason with the name of what it is of, if that is asked for.
fn tell_reason(
    rt: &HostRuntime,
    failure: &Failure,
    name: &str,
    reason: io::Error,
    says_why: bool,
) -> ExitCode {
    let status = tell(rt, failure);
    if says_why {
        tell_note(rt, reason_note(rt.alloc(), name, reason));
    }
    status
}

// Says why the program failed, and after that line what helps to find the fault, if that is asked for: where it stands and what
// stands there, or why a read or write failed.
fn tell_on<D, W>(
    rt: &HostRuntime,
    failure: &Failure,
    input: &Source<'_, D>,
    out: &Output<W>,
) -> ExitCode {
    let is_of_write = matches!(
        failure,
        Failure::CannotWrite(_) | Failure::Audit(AuditFault::WriteFailed)
    );
    if is_of_write && out.failed().is_some_and(is_unread) {
        return ExitCode::SUCCESS;
    }
    let status = tell(rt, failure);
    tell_note(rt, capture_note(rt.alloc(), failure, input));
    let note = match out.failed() {
        Some(error) if is_of_write && input.kept().is_some() => {
            reason_note(rt.alloc(), STANDARD_OUTPUT, error)
        }
        _ => note_on(rt.alloc(), failure, input),
    };
    tell_note(rt, note);
    status
}

// The exit status of what the command line asks.
fn obey<T: Threads + Wait + Sync>(
    rt: &HostRuntime,
    threads: &T,
    matches: &ArgMatches<'_>,
    on_terminal: bool,
) -> Result<ExitCode, Failure> {
    let Some((name, words)) = matches.subcommand() else {
        return over_input(rt, threads, on_terminal);
    };
    let failure = match obey_words(rt, threads, name, words, on_terminal) {
        Ok(status) => return Ok(status),
        Err(failure) => failure,
    };
    let (file, reason) = match failure {
        Failure::NoLimit(place) | Failure::NoSuchDriver(place) => {
            tell_of(rt, word_at(words, "slo", place), &failure);
            return Ok(failure.exit_code());
        }
        Failure::NoChange(option, place) | Failure::NoSuchResource(option, place) => {
            let word = word_at(words, option.id(), place);
            tell_of(
                rt,
                &format!(in rt.alloc(); "--{} {word}", option.id())?,
                &failure,
            );
            return Ok(failure.exit_code());
        }
        Failure::CannotOpen(argument, error) => (argument.file_name(words), error),
        Failure::CannotWrite(error) => (STANDARD_OUTPUT, error),
        _ => return Err(failure),
    };
    Ok(tell_reason(rt, &failure, file, reason, is_verbose(rt, words)))
}

// The exit status of the subcommand of this name with these words.
fn obey_words<T: Threads + Wait + Sync>(
    rt: &HostRuntime,
    threads: &T,
    name: &str,
    words: &ArgMatches<'_>,
    on_terminal: bool,
) -> Result<ExitCode, Failure> {
    check_numbers(words)?;
    let rounds = if name == "draw" {
        range_of(words)?
    } else {
        None
    };
    let limits = limits_of(rt.alloc(), words)?;
    let rows = if name == "whatif" {
        asked_rows(rt.alloc(), words)?
    } else {
        Vec::new(rt.alloc())
    };
    if let Some(run) = trace_run(name, words, rounds, &limits, &rows) {
        let trace = open(rt, words, Argument::Trace)?;
        return over_trace(rt, threads, trace, run, on_terminal);
    }
    match name {
        "sim" => {
            let seed = words.get_one("SEED").unwrap_or(0);
            over_script(rt, threads, words, ScriptRun::Sim { seed })
        }
        "run" => over_script(rt, threads, words, ScriptRun::Live { on_terminal }),
        "prove" => over_report(rt, words),
        "compare" => compare(rt, threads, words, on_terminal),
        "sweep" => sweep_script(rt, threads, words, on_terminal),
        "completions" => complete(rt, words.get_str("SHELL").unwrap_or("")),
        "import" => Ok(import(rt, words)),
        "watch" => Ok(watch(rt, words)),
        _ => over_input(rt, threads, on_terminal),
    }
}

// What the subcommand of this name does with a trace, if it takes one. It draws these rounds, if they are asked for, counts by
// these limits, and tries the changes of these rows.
fn trace_run<'a>(
    name: &str,
    words: &ArgMatches<'_>,
    rounds: Option<(u32, u32)>,
    limits: &'a [Limit<'a>],
    rows: &'a [AskedRow<'a>],
) -> Option<TraceRun<'a>> {
    let as_json = words.get_flag("json");
    let summary = words.get_flag("summary");
    let top = words.get_one("top").unwrap_or(TOP);
    let waits = if words.get_flag("all-waits") {
        usize::MAX
    } else {
        MAX_WAITS
    };
    Some(match name {
        "check" if as_json => TraceRun::CheckAsJson,
        "check" => TraceRun::Check,
        "audit" if as_json => TraceRun::AuditAsJson { summary },
        "audit" => TraceRun::Audit { summary },
        "explain" if as_json => TraceRun::Explain(View::Json {
            limits,
            waits: Some(waits).filter(|_| !words.get_flag("no-stays")),
            has_blame: words.get_flag("blame"),
        }),
        "explain" => TraceRun::Explain(View::Page {
            limits,
            top,
            has_times: !words.get_flag("rounds"),
            has_blame: words.get_flag("blame"),
        }),
        "draw" => TraceRun::Explain(View::Drawing { rounds }),
        "timeline" => TraceRun::Explain(View::Timeline { waits }),
        "whatif" => TraceRun::WhatIf(WhatIfRun { rows, top, as_json }),
        "schedule" => { TraceRun::Schedule(NewOrder::named(words.get_str("order").unwrap_or(""))) }
        "migrate" => TraceRun::Migrate,
        "record" => TraceRun::Record,
        "script" => TraceRun::Script,
        _ => return None,
    })
}

// Prints the summary of the audit of the trace on standard input.
fn over_input<T: Threads + Sync>(
    rt: &HostRuntime,
    threads: &T,
    on_terminal: bool,
) -> Result<ExitCode, Failure> {
    over_trace(
        rt,
        threads,
        input(rt),
        TraceRun::Audit { summary: true },
        on_terminal,
    )
}

// What a run does with the trace that is open. A word that it refuses is told by the caller.
fn over_trace<T: Threads + Sync, D: Read + Drop>(
    rt: &HostRuntime,
    threads: &T,
    mut trace: Source<'_, D>,
    run: TraceRun<'_>,
    on_terminal: bool,
) -> Result<ExitCode, Failure> {
    let mut out = standard_output(rt);
    let line = ProgressLine::new(rt, on_terminal);
    let is_one_line = matches!(run, TraceRun::Check | TraceRun::Audit { .. });
    let done = run.over(rt, threads, &line, &mut trace, &mut out);
    line.clear();
    match done {
        Ok(()) => Ok(ExitCode::SUCCESS),
        Err(failure @ (Failure::NoSuchDriver(_) | Failure::NoSuchResource(_, _))) => Err(failure),
        Err(failure) => {
            let status = tell_on(rt, &failure, &trace, &out);
            // (what checks and audits say of a text is one line)
            if !is_one_line && trace.front().is_empty() && is_bad_header(&failure) {
                let _ = rt.eprintln("camxpt: there is nothing in it");
            }
            Ok(status)
        }
    }
}

// The status is 1 for a report that isn't proved.
fn over_report(rt: &HostRuntime, words: &ArgMatches<'_>) -> Result<ExitCode, Failure> {
    let Both {
        first: mut trace,
        second: mut report,
        folder: _folder,
    } = open_both(rt, words, Argument::Trace, Argument::Report)?;
    let mut out = standard_output(rt);
    let as_json = words.get_flag("json");
    match prove(rt.alloc(), &mut trace, &mut report, &mut out, as_json) {
        Ok(true) => Ok(ExitCode::SUCCESS),
        Ok(false) => Ok(ExitCode::FAILURE),
        Err(failure) => {
            let is_of_report = matches!(failure, Failure::Audit(AuditFault::Report(_)));
            let input = if is_of_report { &report } else { &trace };
            Ok(tell_on(rt, &failure, input, &out))
        }
    }
}

fn over_script<T: Threads + Wait + Sync>(
    rt: &HostRuntime,
    threads: &T,
    words: &ArgMatches<'_>,
    run: ScriptRun,
) -> Result<ExitCode, Failure> {
    let mut script = open(rt, words, Argument::Script)?;
    let mut out = standard_output(rt);
    match run.over(rt, threads, &mut script, &mut out) {
        Ok(ending) => {
            let _ = rt.eprintln(format_args!("ending {ending}"));
            let has_to_drain = words.get_flag("require-drained");
            Ok(match ending {
                Ending::RoundsFull | Ending::HistoryFull if has_to_drain => {
                    ExitCode::from(NOT_DRAINED)
                }
                _ => ExitCode::SUCCESS,
            })
        }
        Err(failure) => Ok(tell_on(rt, &failure, &script, &out)),
    }
}

fn complete(rt: &HostRuntime, name: &str) -> Result<ExitCode, Failure> {
    let Some(shell) = Shell::named(name) else {
        return Err(Failure::NoShell);
    };
    print(&mut standard_output(rt), &script(rt.alloc(), shell)?)?;
    Ok(ExitCode::SUCCESS)
}
