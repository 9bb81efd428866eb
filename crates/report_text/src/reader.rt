//! Reads a report, whoever made it.

ghost use Rattle.std.specs.Prelude.{◌≡◌, ◌≢◌, ◌<◌, ◌≤◌, ◌^◌, [], ◌∷◌, false, Ok, Err, codes, drop, length, IfOk, IfErr, IfSome, OnOk};
ghost use Rattle.report_text.specs.Words.{device_of, has_failed, net_of, instance_of_rows};
ghost use Rattle.report_text.specs.TextLines.{lines};
ghost use Rattle.report_text.specs.Claims.{IsClaim, IsReport, WasReport, Explains, HasSmallTargets, IsFirstFaulty, fault_line, Claim};
ghost use Rattle.report_text.specs.Reading.{IsEndFault, IsReadAs};
ghost use Rattle.report_text.specs.declared.limits.TheConstants.{MAX_REPORT_BYTES};

use crate::claim::Claim;
use crate::limits::max_bytes;
use crate::lines::{after_line, line_at, line_number};
use crate::price_lines::read_prices;
use crate::report_fault::ReportFault;
use crate::stay_lines::read_stays;
use crate::summary::read_summary;
use cam_event::History;
use cam_types::{Watched, WholeFault, read_within};
use round_net::{Net, Prices, Schedule};
use std::alloc::Global;
use std::io::Read;

/// Reads a report on a net, of a history or of a recording, to the end of the input, whoever made it. A fault of the text
/// names its first faulty line, counted from 1, and why: the lines before it begin the report of some claim about the net,
/// and with it they begin none. A line that is missing is faulty too. `ReadFailed` and `TooLong` come before any of these.
pub fn read_claim<R: Read>(
    alloc: Global,
    reader: &mut Watched<R>,
    net: &Net,
) -> Result<Claim, ReportFault>
    requires { has_failed reader.old ≡ false }
    // What is read is a report, and a report is read.
    ensures found { IfOk result (λ claim. WasReport net.now (R.remaining (device_of reader.old)) (R.remaining (device_of reader.new)) claim) }
    ensures only { (claim : Claim) → IsClaim (instance_of_rows net.now) claim → HasSmallTargets net.now →
        IfSome (R.remaining (device_of reader.old)) (λ all. IsReport net.now all claim →
        result ≢ Err ReportFault.OutOfMemory → result ≢ Err ReportFault.ReadFailed → result ≡ Ok claim) }

    ensures faults { IfErr result (Explains net.now (R.remaining (device_of reader.old)) (R.remaining (device_of reader.new)) (has_failed reader.new)) }
    ensures calm { result ≢ Err ReportFault.ReadFailed → has_failed reader.new ≡ false }
{
    match read_within(alloc, reader, max_bytes(net)) {
        Ok(text) => read_text(alloc, &text, net),
        Err(WholeFault::TooLong) => Err(ReportFault::TooLong),
        Err(WholeFault::ReadFailed) => Err(ReportFault::ReadFailed),
        Err(WholeFault::OutOfMemory) => Err(ReportFault::OutOfMemory),
    }
}

/// Reads a report on a history, as `read_claim` does by the history's net.
pub fn read_report<R: Read>(
    alloc: Global,
    reader: &mut Watched<R>,
    _history: &History,
    net: &Net,
) -> Result<Claim, ReportFault>
    requires calm { has_failed reader.old ≡ false }
    requires net { net.now ≡ net_of _history.now.config _history.now.events }
    ensures found { IfOk result (λ claim. WasReport net.now (R.remaining (device_of reader.old)) (R.remaining (device_of reader.new)) claim) }
    ensures only { (claim : Claim) → IsClaim (instance_of_rows net.now) claim → HasSmallTargets net.now →
        IfSome (R.remaining (device_of reader.old)) (λ all. IsReport net.now all claim →
        result ≢ Err ReportFault.OutOfMemory → result ≢ Err ReportFault.ReadFailed → result ≡ Ok claim) }
    ensures faults { IfErr result (Explains net.now (R.remaining (device_of reader.old)) (R.remaining (device_of reader.new)) (has_failed reader.new)) }
    ensures calm { result ≢ Err ReportFault.ReadFailed → has_failed reader.new ≡ false }
{
    read_claim(alloc, reader, net)
}

// What the text claims as a report on the net, or its fault.
fn read_text(alloc: Global, text: &[u8], net: &Net) -> Result<Claim, ReportFault>
    requires { length text.now ≤ MAX_REPORT_BYTES }
    ensures ok { IfOk result (λ claim. IsReadAs net.now text.now claim) }
    ensures err { IfErr result (λ e. e ≢ ReportFault.OutOfMemory → IsFirstFaulty net.now text.now (fault_line e)) }
{
    let (best, excess, stays) = read_summary(text, net)?;
    let (rounds, first) = read_stays(alloc, text, stays, net)?;
    let (prices, end, is_too_large) = read_prices(alloc, text, first, net)?;
    read_end(text, end, is_too_large)?;
    Ok(Claim {
        schedule: Schedule::new(alloc, &rounds)?,
        prices: Prices::listed(net, prices),
        best,
        excess,
    })
}

// Whether the last line stands at an offset and nothing after it.
fn read_end(text: &[u8], at: usize, is_too_large: bool) -> Result<(), ReportFault>
    requires within { at ≤ length text.now }
    requires short { length text.now < 2 ^ 31 }
    ensures ok { OnOk result (lines (drop at text.now) ≡ codes "end" ∷ []) }
    ensures err { IfErr result (λ e. IsEndFault (lines text.now) (lines (drop at text.now)) (fault_line e)) }
{
    if line_at(text, at) != b"end".as_slice() {
        return Err(end_fault(line_number(text, at), is_too_large));
    }
    let next = after_line(text, at);
    if next < text.len() {
        return Err(ReportFault::BadLine(line_number(text, next)));
    }
    Ok(())
}

// The fault of a line that isn't the last one, which is due: it may be one with too large a price.
fn end_fault(number: u32, is_too_large: bool) -> ReportFault
    ensures { fault_line result ≡ number }
{
    if is_too_large {
        ReportFault::PriceRange(number)
    } else {
        ReportFault::BadLine(number)
    }
}
