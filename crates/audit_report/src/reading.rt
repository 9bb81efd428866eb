//! Reads a trace or a recording, whichever it is.

ghost use Rattle.std.specs.Prelude.{◌≡◌, ◌≢◌, ◌≤◌, ℕ, List, false, length, Ok, Err, IfOk, IfErr, IfSome};
ghost use Rattle.audit_report.specs.Words.{device_of, has_failed};
ghost use Rattle.audit_report.specs.Inputs.{Input, IsInput, IsTextOf, IsReadOrFailed, IsNettedOrFailed, WasRead, WhyNotRead, unsent_of, net_of_input, IsLegal, WhyNoNet};
ghost use Rattle.audit_report.specs.Reading.{parsed, parsed_unheaded, AsRead};
ghost use Rattle.recording_file.specs.Whole.{max_bytes};

use crate::audit_fault::AuditFault;
use crate::input::Input;
use cam_types::{MAX_BYTES, Watched, WholeFault};
use recording_file::{RecordingFault, parse_recording, read_long};
use round_net::Net;
use std::alloc::Global;
use std::io::Read;
use trace_file::{TraceFault, parse_trace};

/// Reads a trace or a recording to the end of the input: a recording where the first record is one's header, else a trace. A
/// fault of the text is that of the first record that fails. `ReadFailed` and `TooLong` come before any of these.
pub fn read_input<R: Read>(alloc: Global, reader: &mut Watched<R>) -> Result<Input, AuditFault>
    requires { has_failed reader.old ≡ false }
    // What is read is its text, and a text of either is read.
    ensures found { IfOk result (λ read. WasRead (R.remaining (device_of reader.old)) (R.remaining (device_of reader.new)) read) }
    ensures only { (i : Input) → IsInput i → IfSome (R.remaining (device_of reader.old)) (λ all. IsTextOf all i → IsReadOrFailed i result) }
    ensures faults { IfErr result (WhyNotRead (R.remaining (device_of reader.old)) (R.remaining (device_of reader.new)) (has_failed reader.new)) }
    ensures calm { result ≢ Err (AuditFault.Trace TraceFault.ReadFailed) → has_failed reader.new ≡ false }
{
    match read_long(alloc, reader) {
        Ok(text) => parse_input(alloc, &text),
        Err(WholeFault::TooLong) => Err(AuditFault::Trace(TraceFault::TooLong)),
        Err(WholeFault::ReadFailed) => Err(AuditFault::Trace(TraceFault::ReadFailed)),
        Err(WholeFault::OutOfMemory) => Err(AuditFault::Trace(TraceFault::OutOfMemory)),
    }
}

// What a text says, read as a recording where its first record is the header of one, else as a trace.
fn parse_input(alloc: Global, text: &[u8]) -> Result<Input, AuditFault>
    requires { length text.now ≤ max_bytes text.now }
    ensures { AsRead result (parsed text.now) }
{
    match parse_recording(alloc, text) {
        Ok(recording) => Ok(Input::Recording(recording)),
        Err(fault) => match fault {
            RecordingFault::BadHeader => parse_unheaded(alloc, text),
            _ => Err(AuditFault::Recording(fault)),
        },
    }
}

// The same of a text without that header. One that is too long for a trace stays a recording without its header.
fn parse_unheaded(alloc: Global, text: &[u8]) -> Result<Input, AuditFault>
    ensures { AsRead result (parsed_unheaded text.now) }
{
    if text.len() > MAX_BYTES {
        return Err(AuditFault::Recording(RecordingFault::BadHeader));
    }
    match parse_trace(alloc, text) {
        Ok(history) => Ok(Input::Trace(history)),
        Err(fault) => Err(AuditFault::Trace(fault)),
    }
}

/// Reads a trace or a recording to its end, and makes its net, if each of its stays has a send.
pub fn read_net<R: Read>(alloc: Global, reader: &mut Watched<R>) -> Result<(Input, Net), AuditFault>
    requires { has_failed reader.old ≡ false }
    ensures found { IfOk result (λ read. WasRead (R.remaining (device_of reader.old)) (R.remaining (device_of reader.new)) read.0) }
    ensures net { IfOk result (λ read. read.1 ≡ net_of_input read.0) }
    ensures complete { IfOk result (λ read. unsent_of read.0 ≡ None) }
    ensures legal { IfOk result (λ read. IsLegal read.0) }
    ensures only { (i : Input) → IsInput i → unsent_of i ≡ None → IfSome (R.remaining (device_of reader.old)) (λ all. IsTextOf all i → IsNettedOrFailed i result) }
    ensures faults { IfErr result (WhyNoNet (R.remaining (device_of reader.old)) (R.remaining (device_of reader.new)) (has_failed reader.new)) }
    ensures calm { result ≢ Err (AuditFault.Trace TraceFault.ReadFailed) → has_failed reader.new ≡ false }
{
    let input = read_input(alloc, reader)?;
    let net = input.net(alloc)?;
    Ok((input, net))
}
