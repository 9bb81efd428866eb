//! Runs a script, on one thread or on many, and writes the trace of the run.

use crate::failure::Failure;
use crate::output::Output;
use crate::progress::ProgressLine;
use crate::source::Source;
use audit_report::AuditFault;
use cam_event::History;
use cam_types::Watched;
use sim_worker::{Ending, ScriptPort, run_live_with, sim_run};
use std::io::{Read, Write};
use std::sync::Wait;
use std::thread::Threads;
use trace_file::{Script, read_script, write_trace};

/// How a script is run.
#[derive(Clone, Copy)]
pub enum ScriptRun {
    /// On one thread, by a seed.
    Sim {
        /// The seed that picks whose turn it is.
        seed: u64,
    },
    /// With a thread for each driver that has a row, each lane, recovery and the round keeper.
    Live {
        /// Whether standard error is a terminal: then a run of more than a second shows there how far it is.
        on_terminal: bool,
    },
}

impl ScriptRun {
    /// Runs the script, writes the trace to standard output and answers how the run ended.
    pub fn over<T: Threads + Wait + Sync, D: Read, W: Write>(
        self,
        rt: &HostRuntime,
        threads: &T,
        script: &mut Source<'_, D>,
        out: &mut Output<W>,
    ) -> Result<Ending, Failure> {
        let alloc = rt.alloc();
        let mut read = Watched::new(&mut *script);
        let script = read_script(alloc, &mut read).map_err(AuditFault::Trace)?;
        let (history, ending) = match self {
            ScriptRun::Sim { seed } => {
                let run = sim_run(alloc, &script, seed)?;
                (run.history, run.ending)
            }
            ScriptRun::Live { on_terminal } => over_threads(rt, threads, &script, on_terminal)?,
        };
        write_trace(alloc, &history, &mut Watched::new(&mut *out))?;
        Ok(ending)
    }
}

// What happens if the script is run with threads, and how the run ends.
fn over_threads<T: Threads + Wait + Sync>(
    rt: &HostRuntime,
    threads: &T,
    script: &Script,
    on_terminal: bool,
) -> Result<(History, Ending), Failure> {
    let alloc = rt.alloc();
    let ports = ScriptPort::for_lanes(alloc, script)?;
    let line = ProgressLine::new(rt, on_terminal);
    let run = run_live_with(threads, alloc, script, ports, &line);
    line.clear();
    let run = run?;
    Ok((run.history, run.ending))
}
