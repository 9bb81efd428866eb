//! Audits, explains, compares and draws traces of a CAM transport and recordings of any scheduler, and runs scripts that record traces.
#![tactic(auto)]

use std::io::IsTerminal;
use std::process::ExitCode;

mod change_option;
mod change_texts;
mod change_words;
mod compare_run;
mod completion;
mod failure;
mod front;
mod import_fault;
mod import_note;
mod import_options;
mod import_run;
mod import_span;
mod import_warnings;
mod import_words;
mod limits;
mod load_run;
mod note;
mod output;
mod program;
mod progress;
mod proof_run;
mod schedule_run;
mod script_run;
mod shell;
mod source;
mod subcommands;
mod sweep_run;
mod sweep_words;
mod trace_run;
mod view;
mod watch_run;
mod what_if_run;
mod window_files;
mod window_reader;
mod word;
mod word_fault;
mod words;

fn main(rt: HostRuntime) -> ExitCode {
    let on_terminal = rt.stderr().is_terminal();
    program::run(&rt, &rt, on_terminal)
}
