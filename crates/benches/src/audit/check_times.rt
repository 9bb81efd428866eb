//! The check of a best schedule and its prices alone.

use crate::audit::refused;
use cost_plan::plan;
use price_check::{Verdict, check};
use round_net::Net;
use std::io;
use std::process::ExitCode;
use std::time::{CpuClock, Duration};

// The least time of that many checks counts.
const CHECKS: u32 = 100;

/// Prints that a best plan of the net is proved, and how long the check of that took.
pub fn time_checks<R: AllocGlobal + CpuClock + Print + Eprint>(
    rt: &R,
    net: &Net,
) -> io::Result<ExitCode> {
    let Ok(best) = plan(rt.alloc(), net) else {
        return refused(rt, "no plan");
    };
    let Ok(mut counts) = vec![in rt.alloc(); 0u32; net.cells()] else {
        return refused(rt, "no memory");
    };
    let mut least = Duration::MAX;
    for _ in 0..CHECKS {
        let start = rt.process_cpu_time()?;
        let verdict = check(net, &best.schedule, &best.prices, &mut counts);
        least = least.min(rt.process_cpu_time()?.saturating_sub(start));
        if verdict != Verdict::Proved {
            return refused(rt, "not proved");
        }
    }
    println!(rt; "stays {} cells {} proved", net.stays(), net.cells())?;
    eprintln!(rt; "check {least:?}")?;
    Ok(ExitCode::SUCCESS)
}
