//! What a check says of a trace and what an audit does, and traces written again.

use audit_report::{run_audit, run_check};
use cam_types::Watched;
use std::io;
use std::io::Read;
use trace_file::{read_trace, write_trace};

/// Prints what a check of a trace says, or its report, or the summary alone, or why there is none.
pub fn show_trace(rt: &HostRuntime, trace: impl Read + Drop, kind: &str) -> io::Result<()> {
    let mut trace = Watched::new(trace);
    let mut out = Watched::new(io::writer(rt));
    let answer = match kind {
        "check" => run_check(rt.alloc(), &mut trace, &mut out),
        "summary" => run_audit(rt.alloc(), &mut trace, &mut out, true),
        "report" => run_audit(rt.alloc(), &mut trace, &mut out, false),
        _ => return rt.println("no such run"),
    };
    match answer {
        Ok(()) => Ok(()),
        Err(fault) => rt.println(fault),
    }
}

/// Prints a trace in its plain form, or why it is none or wasn't written.
pub fn write_again(rt: &HostRuntime, trace: impl Read + Drop) -> io::Result<()> {
    let history = match read_trace(rt.alloc(), &mut Watched::new(trace)) {
        Ok(history) => history,
        Err(fault) => return rt.println(fault),
    };
    match write_trace(rt.alloc(), &history, &mut Watched::new(io::writer(rt))) {
        Ok(()) => Ok(()),
        Err(fault) => rt.println(fault),
    }
}
