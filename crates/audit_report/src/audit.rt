//! The audit of a trace or a recording: the report on it, or the report's first seven lines.

ghost use Rattle.std.specs.Prelude.{◌≡◌, ◌≢◌, ℕ, ◌+◌, ◌*◌, ◌≤◌, Bool, true, false, if◌then◌else◌, Option, None, Err, List, [], ◌++◌, length, slice_index, IfOk, IfErr, OnOk};
ghost use Rattle.audit_report.specs.Words.{device_of, has_failed, is_flushed, unsent, rows, instance_of_rows, live_of_rows, pricing_of_rows, IsPricingFor, ProvesBest, net_of, plan_text, WasTrace};
ghost use Rattle.audit_report.specs.Audit.{IsAudit};
ghost use Rattle.cost_plan.specs.InTurn.{TakesTurns};
ghost use Rattle.cost_plan.specs.Ties.{KeepsLive};
ghost use Rattle.audit_report.specs.Inputs.{net_of_input, unsent_of, IsLegal, WasRead};
ghost use Rattle.audit_report.specs.Runs.{Ended};

use crate::audit_fault::AuditFault;
use crate::costs::Costs;
use crate::input::Input;
use crate::reading::read_net;
use cam_types::{Watched, write_whole};
use cost_plan::{BestPlan, plan};
use report_text::{push_plan, push_summary};
use round_net::Net;
use std::alloc::{AllocError, Global};
use std::io::{Read, Write};
use trace_file::TraceFault;

/// Reads a trace or a recording and writes the report on it: the live schedule, a best schedule, the excess of the one over
/// the other, and prices that prove by themselves that no schedule costs less; or, where `summary` is asked for, the first
/// seven lines of the report alone. Before anything is written the input is read to its end, tested, found complete and
/// planned.
pub fn run_audit<R: Read, W: Write>(
    alloc: Global,
    trace: &mut Watched<R>,
    out: &mut Watched<W>,
    summary: bool,
) -> Result<(), AuditFault>
    requires trace_calm { has_failed trace.old ≡ false }
    requires out_calm { has_failed out.old ≡ false }
    ensures ended { Ended (IsAudit summary) (R.remaining (device_of trace.old)) (R.remaining (device_of trace.new)) (has_failed trace.new) (W.contents (device_of out.old)) (W.contents (device_of out.new)) (has_failed out.new) result }
    ensures flushed { OnOk result (is_flushed out.new ≡ true) }
    ensures trace_calm { result ≢ Err (AuditFault.Trace TraceFault.ReadFailed) → has_failed trace.new ≡ false }
    ensures out_calm { result ≢ Err AuditFault.WriteFailed → has_failed out.new ≡ false }
{
    let (input, net) = read_net(alloc, trace)?;
    let best = plan(alloc, &net)?;
    write_audit(alloc, &input, &net, &best, out, summary)
}

/// Writes the report on an input with a best plan of its net, or its summary alone.
pub fn write_audit<W: Write>(
    alloc: Global,
    input: &Input,
    net: &Net,
    best: &BestPlan,
    out: &mut Watched<W>,
    summary: bool,
) -> Result<(), AuditFault>
    requires calm { has_failed out.old ≡ false }
    requires net { net.now ≡ net_of_input input.now }
    requires complete { unsent_of input.now ≡ None }
    requires legal { IsLegal input.now }
    requires proved { ProvesBest (instance_of_rows net.now) (slice_index best.now.schedule) (pricing_of_rows best.now.prices) }
    requires stays { length best.now.schedule ≡ (instance_of_rows net.now).stays }
    requires cells { IsPricingFor (instance_of_rows net.now) best.now.prices }
    requires live { KeepsLive (instance_of_rows net.now) (live_of_rows net.now) (slice_index best.now.schedule) }
    requires turns { TakesTurns (instance_of_rows net.now) (live_of_rows net.now) (slice_index best.now.schedule) }
    ensures ended { (before after : Option (List ℕ)) (failed : Bool) → WasRead before after input.now → Ended (IsAudit summary) before after failed (W.contents (device_of out.old)) (W.contents (device_of out.new)) (has_failed out.new) result }
    ensures flushed { OnOk result (is_flushed out.new ≡ true) }
    ensures calm { result ≢ Err AuditFault.WriteFailed → has_failed out.new ≡ false }
    ensures faults { IfErr result (λ fault. fault ≢ AuditFault.Trace TraceFault.ReadFailed) }
{
    let text = audit_text(alloc, net, best, summary)?;
    match write_whole(out, &text) {
        Ok(()) => Ok(()),
        Err(_) => Err(AuditFault::WriteFailed),
    }
}

// The report on a net with a best plan of it, or its summary alone.
fn audit_text(
    alloc: Global,
    net: &Net,
    best: &BestPlan,
    summary: bool,
) -> Result<Vec<u8>, AllocError>
    requires proved { ProvesBest (instance_of_rows net.now) (slice_index best.now.schedule) (pricing_of_rows best.now.prices) }
    requires stays { length best.now.schedule ≡ (instance_of_rows net.now).stays }
    requires cells { IsPricingFor (instance_of_rows net.now) best.now.prices }
    requires live { KeepsLive (instance_of_rows net.now) (live_of_rows net.now) (slice_index best.now.schedule) }
    requires turns { TakesTurns (instance_of_rows net.now) (live_of_rows net.now) (slice_index best.now.schedule) }
    ensures { IfOk result (λ text. (i : Input) → net.now ≡ net_of_input i → unsent_of i ≡ None → IsLegal i → IsAudit summary i text.items) }
{
    let lines = net.stays() as usize + best.prices.cells();
    let mut text = Vec::with_capacity(alloc, 40 * lines)?;
    let costs = Costs::of(net, &best.schedule);
    push_summary(&mut text, net, costs.live, costs.best, costs.excess)?;
    push_rest(&mut text, net, best, summary)?;
    Ok(text)
}

// Puts the report after its summary, where the whole of it is asked for.
#[tactic(auto, using(crate::proofs::AuditLemmas::nothing_more))]
fn push_rest(
    text: &mut Vec<u8>,
    net: &Net,
    best: &BestPlan,
    summary: bool,
) -> Result<(), AllocError>
    requires stays { length best.now.schedule ≡ (instance_of_rows net.now).stays }
    requires cells { IsPricingFor (instance_of_rows net.now) best.now.prices }
    ensures text { OnOk result (text.new.items ≡ text.old.items ++ (if summary then [] else plan_text net.now (slice_index best.now.schedule) (pricing_of_rows best.now.prices))) }
    ensures short { OnOk result (length text.new.items ≤ length text.old.items + (64 * (instance_of_rows net.now).stays + 64 * (instance_of_rows net.now).rounds * rows (instance_of_rows net.now) + 4)) }
{
    if summary {
        return Ok(());
    }
    push_plan(text, net, &best.schedule, &best.prices)
}
