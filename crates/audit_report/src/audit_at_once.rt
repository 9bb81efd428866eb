//! The audit of a trace or a recording, its adapters planned at once.

ghost use Rattle.std.specs.Prelude.{◌≡◌, ◌≢◌, true, false, Err, OnOk};
ghost use Rattle.cam_types.specs.Watched.{device_of, has_failed, is_flushed};
ghost use Rattle.audit_report.specs.Audit.{IsAudit};
ghost use Rattle.audit_report.specs.Runs.{Ended};

use crate::audit::write_audit;
use crate::audit_fault::AuditFault;
use crate::reading::read_net;
use cam_types::Watched;
use cost_plan::{PlanProgress, plan_with};
use std::alloc::Global;
use std::io::{Read, Write};
use std::thread::Threads;
use trace_file::TraceFault;

/// As `run_audit`, but that the adapters are planned at once, by threads that report each to `progress`, as `plan_with` does.
pub fn run_audit_with<H: Threads + Sync, R: Read, W: Write, G: PlanProgress + Sync>(
    rt: &H,
    alloc: Global,
    trace: &mut Watched<R>,
    out: &mut Watched<W>,
    summary: bool,
    progress: &G,
) -> Result<(), AuditFault>
    requires trace_calm { has_failed trace.old ≡ false }
    requires out_calm { has_failed out.old ≡ false }
    ensures ended { Ended (IsAudit summary) (R.remaining (device_of trace.old)) (R.remaining (device_of trace.new)) (has_failed trace.new) (W.contents (device_of out.old)) (W.contents (device_of out.new)) (has_failed out.new) result }
    ensures flushed { OnOk result (is_flushed out.new ≡ true) }
    ensures trace_calm { result ≢ Err (AuditFault.Trace TraceFault.ReadFailed) → has_failed trace.new ≡ false }
    ensures out_calm { result ≢ Err AuditFault.WriteFailed → has_failed out.new ≡ false }
{
    let (input, net) = read_net(alloc, trace)?;
    let best = plan_with(rt, alloc, &net, progress)?;
    write_audit(alloc, &input, &net, &best, out, summary)
}
