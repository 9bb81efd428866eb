//! Reads a trace.

ghost use Rattle.std.specs.Prelude.{◌≡◌, ◌≢◌, ◌≤◌, false, true, length, Ok, Err, IfOk, IfErr, IfSome};
ghost use Rattle.cam_types.specs.declared.limits.TheConstants.{MAX_BYTES};
ghost use Rattle.cam_types.specs.Watched.{device_of, has_failed};
ghost use Rattle.trace_file.specs.Histories.{Past};
ghost use Rattle.trace_file.specs.Reading.{reading};
ghost use Rattle.trace_file.specs.Records.{holds, records_of};
ghost use Rattle.trace_file.specs.Versions.{Version};
ghost use Rattle.record_text.specs.Text.{records_in};
ghost use Rattle.trace_file.specs.Trace.{IsTrace, IsHistory, WasTrace, Explains};

use crate::trace_fault::TraceFault;
use crate::trace_parser::TraceParser;
use crate::version::Version;
use cam_event::History;
use cam_types::{Watched, WholeFault, read_whole};
use record_text::{front, take_records};
use std::alloc::Global;
use std::io::Read;

/// Reads a trace to the end of the input. A fault of the text names the first record that fails, and the first test
/// that it fails: of its length, word and place; of its fields; of the configuration's rules; of its event.
/// `ReadFailed` and `TooLong` come before any of these.
pub fn read_trace<R: Read>(alloc: Global, reader: &mut Watched<R>) -> Result<History, TraceFault>
    requires { has_failed reader.old ≡ false }
    // What is read is a trace, and a trace is read.
    ensures found { IfOk result (λ h. WasTrace (R.remaining (device_of reader.old)) (R.remaining (device_of reader.new)) h) }
    ensures only { (past : Past) → IsHistory past → IfSome (R.remaining (device_of reader.old)) (λ all. IsTrace all past →
        result ≢ Err TraceFault.OutOfMemory → result ≢ Err TraceFault.ReadFailed → result ≡ Ok past) }

    ensures faults { IfErr result (Explains (R.remaining (device_of reader.old)) (R.remaining (device_of reader.new)) (has_failed reader.new)) }
    ensures calm { result ≢ Err TraceFault.ReadFailed → has_failed reader.new ≡ false }
{
    match read_whole(alloc, reader) {
        Ok(text) => parse_trace(alloc, &text),
        Err(WholeFault::TooLong) => Err(TraceFault::TooLong),
        Err(WholeFault::ReadFailed) => Err(TraceFault::ReadFailed),
        Err(WholeFault::OutOfMemory) => Err(TraceFault::OutOfMemory),
    }
}

/// The same of a text that is at hand: what its records say, or the first fault of the first that fails. `TooLong` and
/// `ReadFailed` aren't answered.
pub fn parse_trace(alloc: Global, text: &[u8]) -> Result<History, TraceFault>
    requires { length text.now ≤ MAX_BYTES }
    ensures { result ≢ Err TraceFault.OutOfMemory → result ≡ reading (records_in text.now) }
{
    take_records(alloc, front(text), TraceParser::Header)?.finish(alloc)
}

/// No list of records is that of two histories, in whichever versions, and none is of two versions. So a history has exactly
/// one list of records in each version that holds it.
pub fn one_history()
    ensures one { (v w : Version) (one other : Past) → IsHistory one → IsHistory other → holds v one.config ≡ true → holds w other.config ≡ true → records_of v one ≡ records_of w other → one ≡ other }
    ensures versions { (v w : Version) (one other : Past) → records_of v one ≡ records_of w other → v ≡ w }
{}
