//! Times parts of the project alone: with the word `queues` a heap of entries, with `lock` calls of seats by four threads, with
//! `records`, `plan` or `check` a part of the audit of the trace on standard input, and with no word each of these. With `net`
//! it prints the trace's net.
#![tactic(auto)]

use lock::fault::Fault;
use std::process::ExitCode;
use std::sync::Wait;
use std::thread::Threads;
use std::time::{Clock, CpuClock};
use std::{env, io};

mod audit;
mod lock;
mod queues;

fn main(rt: HostRuntime) -> io::Result<ExitCode> {
    match obey(&rt, &rt) {
        Ok(status) => Ok(status),
        Err(fault) => {
            eprintln!(rt; "benches: {fault}")?;
            Ok(ExitCode::FAILURE)
        }
    }
}

fn obey<T: Threads + Wait + Clock + CpuClock + AllocGlobal + Print + Eprint + Sync>(
    rt: &HostRuntime,
    threads: &T,
) -> Result<ExitCode, Fault> {
    let words: Vec<String> = env::args(rt)?.collect(rt.alloc())?;
    match words.get(1) {
        Some(word) => time_part(rt, threads, word),
        None => time_all(rt, threads),
    }
}

fn time_all<T: Threads + Wait + Clock + CpuClock + AllocGlobal + Print + Eprint + Sync>(
    rt: &HostRuntime,
    threads: &T,
) -> Result<ExitCode, Fault> {
    lock::time(threads)?;
    queues::time(rt)?;
    Ok(audit::time(rt, threads, None)?)
}

fn time_part<T: Threads + Wait + Clock + CpuClock + AllocGlobal + Print + Eprint + Sync>(
    rt: &HostRuntime,
    threads: &T,
    word: &str,
) -> Result<ExitCode, Fault> {
    match word {
        "queues" => queues::time(rt)?,
        "lock" => lock::time(threads)?,
        _ => return Ok(audit::time(rt, threads, Some(word))?),
    }
    Ok(ExitCode::SUCCESS)
}
