//! Scripts, and runs of them.

use cam_types::Watched;
use sim_worker::{LiveRun, ScriptPort, run_live};
use std::alloc::Global;
use std::sync::Wait;
use std::test::Fail;
use std::thread::Threads;
use trace_file::{Script, read_script};

/// The script that the rows after a header ask for.
pub(crate) fn script(alloc: Global, rows: &str) -> Result<Script, Fail> {
    let text = format!(in alloc; "camscript1,a,b,c,d,e,f,g\n{rows}")?;
    Ok(read_script(alloc, &mut Watched::new(text.as_bytes()))?)
}

/// A run of the script on many threads, by its own answers.
pub(crate) fn live<R: Threads + Wait + Sync>(
    rt: &R,
    alloc: Global,
    script: &Script,
) -> Result<LiveRun<ScriptPort>, Fail> {
    let ports = ScriptPort::for_lanes(alloc, script)?;
    Ok(run_live(rt, alloc, script, ports)?)
}
