//! Checks, audits, explains and draws a trace or a recording, or says what would have helped it; migrates or records a trace; writes the
//! script of its load, or its recording by another order.

ghost use Rattle.std.specs.Prelude.{◌≡◌, false};
ghost use Rattle.cam_types.specs.Watched.{has_failed};

use crate::failure::Failure;
use crate::load_run::{scripted, tell_left_out};
use crate::output::{Output, closed, print};
use crate::progress::{CountedReader, CountedWriter, ProgressLine};
use crate::schedule_run::NewOrder;
use crate::source::Source;
use crate::view::View;
use crate::what_if_run::{WhatIfRun, by_weight};
use audit_report::{
    AuditFault, Input, read_input, read_net, run_audit_with, run_check, run_migrate, run_record,
};
use cam_types::Watched;
use cost_plan::plan_with;
use recording_file::{Recording, write_recording};
use round_net::{Net, NetFault, RoundTable};
use std::alloc::Global;
use std::io::{Read, Write};
use std::thread::Threads;
use trace_file::write_script;
use views::{audit_json, check_json};
use wait_causes::Explanation;

/// What is done with a trace, or with a recording unless it is migrated or recorded.
#[derive(Clone, Copy)]
pub enum TraceRun<'a> {
    /// It is checked.
    Check,
    /// The same, as one line of JSON.
    CheckAsJson,
    /// It is audited.
    Audit {
        /// Whether the report's summary is wanted alone.
        summary: bool,
    },
    /// The same, as one line of JSON.
    AuditAsJson {
        /// Whether the summary is wanted alone.
        summary: bool,
    },
    /// It is explained, and the explanation is shown.
    Explain(View<'a>),
    /// What its waiting would have cost by other orders and with more openings is shown.
    WhatIf(WhatIfRun<'a>),
    /// It is written as a recording whose requests are started by this order.
    Schedule(NewOrder),
    /// It is written in the newest version.
    Migrate,
    /// It is written as a recording.
    Record,
    /// The script of its load is written.
    Script,
}

impl TraceRun<'_> {
    /// Prints what comes of the trace. The line says how far it is.
    pub fn over<T: Threads + Sync, D: Read, W: Write>(
        self,
        rt: &HostRuntime,
        threads: &T,
        line: &ProgressLine<'_>,
        trace: &mut Source<'_, D>,
        out: &mut Output<W>,
    ) -> Result<(), Failure> {
        let (alloc, name) = (rt.alloc(), trace.name);
        let facts = trace.facts(alloc);
        let mut trace = Watched::new(CountedReader::new(trace, line));
        let mut counted = Watched::new(CountedWriter::new(&mut *out, line));
        let text = match self {
            TraceRun::Check => return Ok(run_check(alloc, &mut trace, &mut counted)?),
            TraceRun::Audit { summary } => {
                return Ok(run_audit_with(threads, alloc, &mut trace, &mut counted, summary, line)?);
            }
            TraceRun::Migrate => return Ok(run_migrate(alloc, &mut trace, &mut counted)?),
            TraceRun::Record => return Ok(run_record(alloc, &mut trace, &mut counted)?),
            TraceRun::Script => {
                let made = scripted(alloc, &mut trace)?;
                write_script(alloc, &made.script, &mut counted)?;
                line.clear();
                tell_left_out(rt, &made);
                return Ok(());
            }
            TraceRun::Schedule(order) => {
                let scheduled = order.over(threads, alloc, line, &mut trace)?;
                return Ok(write_recording(alloc, &scheduled, &mut counted)?);
            }
            TraceRun::CheckAsJson => {
                let (_, net) = read_net(alloc, &mut trace)?;
                closed(check_json(alloc, name, &net))?
            }
            TraceRun::AuditAsJson { summary } => {
                let (_, net) = read_net(alloc, &mut trace)?;
                let best = plan_with(threads, alloc, &net, line)?;
                let (schedule, prices) = (&best.schedule, &best.prices);
                closed(audit_json(alloc, name, &net, schedule, prices, summary))?
            }
            TraceRun::Explain(view) => {
                let (net, explanation) = explanation_of(threads, alloc, line, &mut trace)?;
                let made = by_weight(alloc, &net)?;
                view.text(
                    alloc,
                    name,
                    &net,
                    &explanation,
                    made.as_ref(),
                    facts.as_ref(),
                )?
            }
            TraceRun::WhatIf(run) => {
                let (net, explanation) = explanation_of(threads, alloc, line, &mut trace)?;
                run.text(threads, alloc, line, name, &net, &explanation)?
            }
        };
        line.clear();
        print(out, &text)
    }
}

/// The net of a trace or a recording, and its explanation beside a best schedule.
pub fn explanation_of<T: Threads + Sync, D: Read>(
    threads: &T,
    alloc: Global,
    line: &ProgressLine<'_>,
    input: &mut Watched<D>,
) -> Result<(Net, Explanation), Failure>
    requires { has_failed input.old ≡ false }
{
    match read_input(alloc, input)? {
        Input::Trace(history) => {
            let table = RoundTable::of(alloc, &history)?;
            let net = match Net::of_rounds(alloc, &history, &table) {
                Ok(net) => net,
                Err(NetFault::Unsent(stay)) => return Err(AuditFault::Unsent(stay).into()),
                Err(NetFault::OutOfMemory) => return Err(AuditFault::OutOfMemory.into()),
            };
            let best = plan_with(threads, alloc, &net, line)?;
            let explanation = Explanation::of(alloc, &history, table, &net, &best.schedule)?;
            Ok((net, explanation))
        }
        Input::Recording(recording) => explained(threads, alloc, line, recording),
    }
}

// The net of a recording, and its explanation beside the best schedule at the recorded pace and the best one.
fn explained<T: Threads + Sync>(
    threads: &T,
    alloc: Global,
    line: &ProgressLine<'_>,
    recording: Recording,
) -> Result<(Net, Explanation), Failure> {
    let net = Net::of_recording(alloc, &recording)?;
    let best = plan_with(threads, alloc, &net, line)?;
    let paced = plan_with(threads, alloc, &net.at_pace(alloc)?, line)?;
    let (pace, best) = (&paced.schedule, &best.schedule);
    let explanation = Explanation::of_recording(alloc, recording, &net, pace, best)?;
    Ok((net, explanation))
}
