//! Times the parts of an audit alone, on the trace on standard input.

use cam_types::{Watched, read_within};
use check_times::time_checks;
use net_text::print_net;
use plan_times::time_plans;
use record_count::count_records;
use round_net::Net;
use std::io;
use std::process::ExitCode;
use std::thread::Threads;
use std::time::{Clock, CpuClock};
use trace_file::read_trace;

mod check_times;
mod net_text;
mod plan_times;
mod record_count;

// As many bytes as a recording may have.
const MOST: usize = 268_435_456;

/// With the word `records` times the reading of the records of a trace or a recording, with `plan` a best plan, made alone and with its adapters
/// planned at once, with `check` the check of that plan and its prices, and with no word all three. With `net` prints the
/// trace's net instead.
pub fn time<T: Threads + Clock + CpuClock + AllocGlobal + Print + Eprint + Sync>(
    rt: &HostRuntime,
    threads: &T,
    word: Option<&str>,
) -> io::Result<ExitCode> {
    let Ok(text) = read_within(rt.alloc(), &mut Watched::new(rt.reader()), MOST) else {
        return refused(rt, "no text");
    };
    if !matches!(word, None | Some("plan" | "check" | "net")) {
        return count_records(rt, &text);
    }
    let Some(net) = read_net(rt, &text) else {
        return refused(rt, "no net");
    };
    match word {
        Some("plan") => time_plans(threads, &net),
        Some("check") => time_checks(rt, &net),
        Some(_) => print_net(rt, &net),
        None => {
            count_records(rt, &text)?;
            time_plans(threads, &net)?;
            time_checks(rt, &net)
        }
    }
}

fn read_net<R: AllocGlobal>(rt: &R, text: &[u8]) -> Option<Net> {
    let history = read_trace(rt.alloc(), &mut Watched::new(text)).ok()?;
    Net::of(rt.alloc(), &history).ok()
}

// Says on standard error why there is no time.
fn refused<R: Eprint>(rt: &R, why: &str) -> io::Result<ExitCode> {
    eprintln!(rt; "benches: {why}")?;
    Ok(ExitCode::FAILURE)
}
