//! The runs that standard input lists.

use crate::calls::make_all;
use crate::fault::Fault;
use crate::nets::{show_cost, show_net};
use crate::scripts;
use crate::scripts::show_script;
use crate::spellings::{show_number, show_paths};
use crate::traces::{show_trace, write_again};
use std::fs::File;
use std::io;

/// Prints each line of standard input, and after it what comes of the run that it names.
pub fn do_runs(rt: &HostRuntime) -> Result<(), Fault> {
    for line in rt.lines(rt.alloc()) {
        let line = line?;
        println!(rt; "== {line}")?;
        let (kind, rest) = line.split_once(' ').unwrap_or((line.as_str(), ""));
        match kind {
            "number" => show_number(rt, rest)?,
            "path" => show_paths(rt, rest)?,
            "calls" => do_calls(rt, rest)?,
            _ => do_over_file(rt, kind, rest)?,
        }
    }
    Ok(())
}

// The calls that a file lists.
fn do_calls(rt: &HostRuntime, name: &str) -> Result<(), Fault> {
    let path = format!(in rt.alloc(); "{name}.txt")?;
    let file = File::open(rt, path.as_str())?;
    let text = io::read_to_string(rt.alloc(), file)?;
    make_all(rt, &text)
}

// A run over a trace or a script, whose name stands before the numbers that the run takes.
fn do_over_file(rt: &HostRuntime, kind: &str, rest: &str) -> io::Result<()> {
    let (name, numbers) = rest.split_once(' ').unwrap_or((rest, ""));
    let path = format!(in rt.alloc(); "{name}.csv")?;
    let file = File::open(rt, path.as_str())?;
    match kind {
        "script" => show_script(rt, file),
        "again" => write_again(rt, file),
        "script-again" => scripts::write_again(rt, file),
        "net" => show_net(rt, file),
        "cost" => show_cost(rt, file, numbers),
        _ => show_trace(rt, file, kind),
    }
}
