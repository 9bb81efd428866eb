//! The migration of a trace to the newest version.

ghost use Rattle.std.specs.Prelude.{◌≡◌, ◌≢◌, false, true, Ok, Err, OnOk};
ghost use Rattle.audit_report.specs.Words.{device_of, has_failed, is_flushed, WasTrace};
ghost use Rattle.audit_report.specs.Migration.{IsMigration, WhyNoTrace};
ghost use Rattle.audit_report.specs.Runs.{EndedBy};

use crate::audit_fault::AuditFault;
use cam_types::Watched;
use std::alloc::Global;
use std::io::{Read, Write};
use trace_file::{TraceFault, WriteFault, migrate_trace, read_trace};

/// Reads a trace of any version and writes the trace of the same history in version 3, which has a table of weights and
/// links. Stays without a send are taken as they are. Before anything is written the trace is read to its end and tested.
pub fn run_migrate<R: Read, W: Write>(
    alloc: Global,
    trace: &mut Watched<R>,
    out: &mut Watched<W>,
) -> Result<(), AuditFault>
    requires trace_calm { has_failed trace.old ≡ false }
    requires out_calm { has_failed out.old ≡ false }
    ensures ended { EndedBy WasTrace WhyNoTrace IsMigration (R.remaining (device_of trace.old)) (R.remaining (device_of trace.new)) (has_failed trace.new) (W.contents (device_of out.old)) (W.contents (device_of out.new)) (has_failed out.new) result }
    ensures flushed { OnOk result (is_flushed out.new ≡ true) }
    ensures trace_calm { result ≢ Err (AuditFault.Trace TraceFault.ReadFailed) → has_failed trace.new ≡ false }
    ensures out_calm { result ≢ Err AuditFault.WriteFailed → has_failed out.new ≡ false }
{
    let history = match read_trace(alloc, trace) {
        Ok(history) => history,
        Err(fault) => return Err(AuditFault::Trace(fault)),
    };
    match migrate_trace(alloc, &history, out) {
        Ok(()) => Ok(()),
        Err(WriteFault::WriteFailed) => Err(AuditFault::WriteFailed),
        Err(WriteFault::OutOfMemory) => Err(AuditFault::OutOfMemory),
    }
}
