//! Runs a script under several settings by several seeds.

use crate::failure::Failure;
use crate::note::{note_on, tell, tell_note, title};
use crate::output::{closed, print, standard_output};
use crate::progress::{CountedRunner, ProgressLine};
use crate::source::{Argument, open};
use crate::sweep_words::{WordFault, choices_of, refusal};
use audit_report::AuditFault;
use cam_types::Watched;
use clap::ArgMatches;
use std::alloc::{AllocError, Global};
use std::process::ExitCode;
use std::sync::atomic::AtomicU64;
use std::thread::Threads;
use sweep::{Choice, Row, SimRunner, SweepPlan, first_refused, run_sweep};
use trace_file::{Script, read_script};
use views::{Swept, shown_name, sweep_json, sweep_page};

/// How many seeds run a setting where no number is given.
const SEEDS: u32 = 1;

/// Prints a row for each setting of the script, as one line of JSON if that is asked for.
pub fn sweep_script<T: Threads + Sync>(
    rt: &HostRuntime,
    threads: &T,
    words: &ArgMatches<'_>,
    on_terminal: bool,
) -> Result<ExitCode, Failure> {
    let choices = match choices_of(rt.alloc(), words)? {
        Ok(choices) => choices,
        Err(fault) => return tell_word(rt, fault),
    };
    let mut source = open(rt, words, Argument::Script)?;
    match read_script(rt.alloc(), &mut Watched::new(&mut source)) {
        Ok(script) => over_script(rt, threads, words, &script, &choices, on_terminal),
        Err(fault) => {
            let failure = Failure::Audit(AuditFault::Trace(fault));
            let status = tell(rt, &failure);
            tell_note(rt, note_on(rt.alloc(), &failure, &source));
            Ok(status)
        }
    }
}

// Says which word is refused, and why. Control characters of the word are escaped.
fn tell_word(rt: &HostRuntime, fault: WordFault<'_>) -> Result<ExitCode, Failure> {
    let line = format!(in rt.alloc(); "{fault}")?;
    let line = shown_name(rt.alloc(), &line)?;
    let _ = rt.eprintln(format_args!("camxpt: {line}"));
    Ok(ExitCode::from(2))
}

// Runs the script under the settings that the choices make, unless one of these is refused, or they are too many.
fn over_script<T: Threads + Sync>(
    rt: &HostRuntime,
    threads: &T,
    words: &ArgMatches<'_>,
    script: &Script,
    choices: &[Choice],
    on_terminal: bool,
) -> Result<ExitCode, Failure> {
    if let Some(refused) = first_refused(script.config(), choices) {
        return tell_word(rt, refusal(words, refused.at, refused.why));
    }
    let seeds = words.get_one("seeds").unwrap_or(SEEDS);
    let plan = SweepPlan::of(rt.alloc(), script.config(), choices, seeds)?;
    let line = ProgressLine::new(rt, on_terminal);
    let rows = rows_of(threads, rt.alloc(), &line, script, &plan);
    line.clear();
    let rows = rows?;
    let swept = Swept {
        name: title(Argument::Script.file_name(words)),
        config: script.config(),
        plan: &plan,
        rows: &rows,
    };
    let text = text_of(rt.alloc(), swept, words.get_flag("json"))?;
    print(&mut standard_output(rt), &text)?;
    Ok(ExitCode::SUCCESS)
}

// The rows as a page, or as one line of JSON.
fn text_of(alloc: Global, swept: Swept<'_>, as_json: bool) -> Result<String, AllocError> {
    if as_json {
        closed(sweep_json(alloc, swept))
    } else {
        sweep_page(alloc, swept)
    }
}

// Runs the script under each setting by each seed. The line says how many of the runs are over.
fn rows_of<T: Threads + Sync>(
    threads: &T,
    alloc: Global,
    line: &ProgressLine<'_>,
    script: &Script,
    plan: &SweepPlan,
) -> Result<Vec<Row>, Failure> {
    let runner = CountedRunner {
        runner: SimRunner { alloc },
        line,
        runs: plan.runs(),
        over: AtomicU64::new(0),
    };
    Ok(run_sweep(threads, alloc, &runner, script, plan)?)
}
