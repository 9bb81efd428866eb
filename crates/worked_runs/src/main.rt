//! Does the runs that standard input lists, a line each, over the traces, scripts and lists of calls in `data/`, and prints what
//! comes of each. With the word `script` it reads a script from standard input instead, and with `trace` it reads a trace from
//! there and writes it again. With `calls` it makes the first calls that standard input lists: after `alone` on one transport,
//! after a number on that many, one after the other, and then it tells the processor time that they took.
#![tactic(auto)]

use calls::make_first;
use fault::Fault;
use runs::do_runs;
use scripts::show_script;
use std::process::ExitCode;
use std::{env, io};
use traces::write_again;

mod calls;
mod fault;
mod nets;
mod runs;
mod scripts;
mod spellings;
mod traces;

fn main(rt: HostRuntime) -> io::Result<ExitCode> {
    match run(&rt) {
        Ok(()) => Ok(ExitCode::SUCCESS),
        Err(fault) => {
            eprintln!(rt; "worked_runs: {fault}")?;
            Ok(ExitCode::FAILURE)
        }
    }
}

fn run(rt: &HostRuntime) -> Result<(), Fault> {
    let words: Vec<String> = env::args(rt)?.collect(rt.alloc())?;
    let Some(word) = words.get(1) else {
        return do_runs(rt);
    };
    match word.as_str() {
        "script" => show_script(rt, rt.reader())?,
        "trace" => write_again(rt, rt.reader())?,
        "calls" => {
            let Some(word) = words.get(2) else {
                return Err(Fault::Word);
            };
            make_first(rt, word)?;
        }
        _ => return Err(Fault::Word),
    }
    Ok(())
}
