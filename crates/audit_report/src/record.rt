//! The recording of a trace.

ghost use Rattle.std.specs.Prelude.{◌≡◌, ◌≢◌, false, true, Err, OnOk};
ghost use Rattle.audit_report.specs.Words.{device_of, has_failed, is_flushed, WasTrace};
ghost use Rattle.audit_report.specs.Histories.{IsRecord, WhyNoHistory};
ghost use Rattle.audit_report.specs.Runs.{EndedBy};

use crate::audit_fault::AuditFault;
use cam_types::Watched;
use conversions::recording_of;
use recording_file::{WriteFault, write_recording};
use round_net::NetFault;
use std::alloc::Global;
use std::io::{Read, Write};
use trace_file::{TraceFault, read_trace};

/// Reads a trace and writes the recording of its net: what the transport did with its stays, as what any scheduler did with
/// requests. Before anything is written the trace is read to its end, tested and found complete.
pub fn run_record<R: Read, W: Write>(
    alloc: Global,
    trace: &mut Watched<R>,
    out: &mut Watched<W>,
) -> Result<(), AuditFault>
    requires trace_calm { has_failed trace.old ≡ false }
    requires out_calm { has_failed out.old ≡ false }
    ensures ended { EndedBy WasTrace WhyNoHistory IsRecord (R.remaining (device_of trace.old)) (R.remaining (device_of trace.new)) (has_failed trace.new) (W.contents (device_of out.old)) (W.contents (device_of out.new)) (has_failed out.new) result }
    ensures flushed { OnOk result (is_flushed out.new ≡ true) }
    ensures trace_calm { result ≢ Err (AuditFault.Trace TraceFault.ReadFailed) → has_failed trace.new ≡ false }
    ensures out_calm { result ≢ Err AuditFault.WriteFailed → has_failed out.new ≡ false }
{
    let history = match read_trace(alloc, trace) {
        Ok(history) => history,
        Err(fault) => return Err(AuditFault::Trace(fault)),
    };
    let recording = match recording_of(alloc, &history) {
        Ok(recording) => recording,
        Err(NetFault::Unsent(stay)) => return Err(AuditFault::Unsent(stay)),
        Err(NetFault::OutOfMemory) => return Err(AuditFault::OutOfMemory),
    };
    match write_recording(alloc, &recording, out) {
        Ok(()) => Ok(()),
        Err(WriteFault::WriteFailed) => Err(AuditFault::WriteFailed),
        Err(WriteFault::OutOfMemory) => Err(AuditFault::OutOfMemory),
    }
}
