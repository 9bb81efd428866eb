//! Whether a report on a trace or a recording is proved, whoever made it.

ghost use Rattle.std.specs.Prelude.{◌≡◌, ◌≢◌, ℕ, Bool, true, false, Err, List, Option, None, IfSome, OnOk};
ghost use Rattle.audit_report.specs.Words.{device_of, has_failed, is_flushed};
ghost use Rattle.audit_report.specs.Audit.{IsAudit};
ghost use Rattle.audit_report.specs.Inputs.{Input, IsInput, IsTextOf, WasRead, net_of_input, unsent_of};
ghost use Rattle.audit_report.specs.Prove.{Proving, IsProvedOrFailed};

use crate::audit_fault::AuditFault;
use crate::finding::Finding;
use crate::input::Input;
use crate::reading::read_net;
use cam_types::{Watched, write_whole};
use report_text::{ReportFault, read_claim};
use round_net::Net;
use std::alloc::Global;
use std::io::{Read, Write};
use trace_file::TraceFault;

/// Reads a trace or a recording and a report on it, whoever made it, and writes one line: whether the report's prices prove
/// that its schedule is a best one, and its numbers are right, or why not. Answers whether it is proved. The first input is
/// read to its end, tested and found complete before anything of the report is read, and the report before anything is
/// written.
pub fn run_prove<R: Read, S: Read, W: Write>(
    alloc: Global,
    trace: &mut Watched<R>,
    report: &mut Watched<S>,
    out: &mut Watched<W>,
) -> Result<bool, AuditFault>
    requires trace_calm { has_failed trace.old ≡ false }
    requires report_calm { has_failed report.old ≡ false }
    requires out_calm { has_failed out.old ≡ false }
    ensures ended { Proving
        (record { trace = R.remaining (device_of trace.old); report = S.remaining (device_of report.old); out = W.contents (device_of out.old); trace_failed = has_failed trace.old; report_failed = has_failed report.old; out_failed = has_failed out.old })
        (record { trace = R.remaining (device_of trace.new); report = S.remaining (device_of report.new); out = W.contents (device_of out.new); trace_failed = has_failed trace.new; report_failed = has_failed report.new; out_failed = has_failed out.new })
        result }

    // A report that an audit of the input writes is proved.
    ensures audited { (i : Input) (text : List ℕ) → IsInput i → IsAudit false i text →
        IfSome (R.remaining (device_of trace.old)) (λ all. IsTextOf all i →
        IfSome (S.remaining (device_of report.old)) (λ given. given ≡ text → IsProvedOrFailed result)) }
    ensures flushed { OnOk result (is_flushed out.new ≡ true) }
    ensures trace_calm { result ≢ Err (AuditFault.Trace TraceFault.ReadFailed) → has_failed trace.new ≡ false }
    ensures report_calm { result ≢ Err (AuditFault.Report ReportFault.ReadFailed) → has_failed report.new ≡ false }
    ensures out_calm { result ≢ Err AuditFault.WriteFailed → has_failed out.new ≡ false }
{
    let (input, net) = read_net(alloc, trace)?;
    prove_net(alloc, &input, &net, report, out)
}

// Reads a report on an input with its net, and writes whether it is proved or why not.
fn prove_net<S: Read, W: Write>(
    alloc: Global,
    input: &Input,
    net: &Net,
    report: &mut Watched<S>,
    out: &mut Watched<W>,
) -> Result<bool, AuditFault>
    requires report_calm { has_failed report.old ≡ false }
    requires out_calm { has_failed out.old ≡ false }
    requires net { net.now ≡ net_of_input input.now }
    requires complete { unsent_of input.now ≡ None }
    ensures ended { (before after : Option (List ℕ)) (had_failed failed : Bool) → WasRead before after input.now → Proving
        (record { trace = before; report = S.remaining (device_of report.old); out = W.contents (device_of out.old); trace_failed = had_failed; report_failed = has_failed report.old; out_failed = has_failed out.old })
        (record { trace = after; report = S.remaining (device_of report.new); out = W.contents (device_of out.new); trace_failed = failed; report_failed = has_failed report.new; out_failed = has_failed out.new })
        result }
    ensures audited { (text : List ℕ) → IsInput input.now → IsAudit false input.now text →
        IfSome (S.remaining (device_of report.old)) (λ given. given ≡ text → IsProvedOrFailed result) }
    ensures flushed { OnOk result (is_flushed out.new ≡ true) }
    ensures report_calm { result ≢ Err (AuditFault.Report ReportFault.ReadFailed) → has_failed report.new ≡ false }
    ensures out_calm { result ≢ Err AuditFault.WriteFailed → has_failed out.new ≡ false }
{
    let claim = match read_claim(alloc, report, net) {
        Ok(claim) => claim,
        Err(fault) => return Err(AuditFault::Report(fault)),
    };
    let finding = Finding::of(alloc, net, &claim)?;
    let mut line = Vec::new(alloc);
    finding.write(&mut line)?;
    match write_whole(out, &line) {
        Ok(()) => Ok(finding.is_proved()),
        Err(_) => Err(AuditFault::WriteFailed),
    }
}
