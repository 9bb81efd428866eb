//! Reads a recording.

ghost use Rattle.std.specs.Prelude.{◌≡◌, ◌≢◌, ◌≤◌, ◌||◌, Bool, false, true, length, Ok, Err, IfOk, IfErr, IfSome};
ghost use Rattle.recording_file.specs.Recorded.{Recorded, IsRecording, MAX_RECORDING_BYTES};
ghost use Rattle.cam_types.specs.Watched.{device_of, has_failed};
ghost use Rattle.recording_file.specs.Reading.{reading};
ghost use Rattle.recording_file.specs.Records.{records_of};
ghost use Rattle.cam_types.specs.Weights.{are_standard};
ghost use Rattle.record_text.specs.Text.{records_in};
ghost use Rattle.recording_file.specs.Recordings.{IsRecordingText, WasRecording, Explains};

use crate::recording::Recording;
use crate::recording_fault::RecordingFault;
use crate::recording_parser::RecordingParser;
use crate::whole::read_long;
use cam_types::{Watched, WholeFault};
use record_text::{front, take_records};
use std::alloc::Global;
use std::io::Read;

/// Reads a recording to the end of the input. A fault of the text names the first record that fails, and the first test
/// that it fails: of its length, word, place and order; of its fields; of the configuration's rules; of its request.
/// `ReadFailed` and `TooLong` come before any of these.
pub fn read_recording<R: Read>(
    alloc: Global,
    reader: &mut Watched<R>,
) -> Result<Recording, RecordingFault>
    requires { has_failed reader.old ≡ false }
    // What is read is a recording's text, and a recording's text is read.
    ensures found { IfOk result (λ r. WasRecording (R.remaining (device_of reader.old)) (R.remaining (device_of reader.new)) r) }
    ensures only { (r : Recorded) → IsRecording r → IfSome (R.remaining (device_of reader.old)) (λ all. IsRecordingText all r →
        result ≢ Err RecordingFault.OutOfMemory → result ≢ Err RecordingFault.ReadFailed → result ≡ Ok r) }
    ensures faults { IfErr result (Explains (R.remaining (device_of reader.old)) (R.remaining (device_of reader.new)) (has_failed reader.new)) }
    ensures calm { result ≢ Err RecordingFault.ReadFailed → has_failed reader.new ≡ false }
{
    match read_long(alloc, reader) {
        Ok(text) => parse_recording(alloc, &text),
        Err(WholeFault::TooLong) => Err(RecordingFault::TooLong),
        Err(WholeFault::ReadFailed) => Err(RecordingFault::ReadFailed),
        Err(WholeFault::OutOfMemory) => Err(RecordingFault::OutOfMemory),
    }
}

/// The same of a text that is at hand: what its records say, or the first fault of the first that fails. `TooLong` and
/// `ReadFailed` aren't answered.
pub fn parse_recording(alloc: Global, text: &[u8]) -> Result<Recording, RecordingFault>
    requires { length text.now ≤ MAX_RECORDING_BYTES }
    ensures { result ≢ Err RecordingFault.OutOfMemory → result ≡ reading (records_in text.now) }
{
    take_records(alloc, front(text), RecordingParser::Header)?.finish(alloc)
}

/// No list of records is that of two recordings. So a text is that of one recording at most.
pub fn one_recording()
    ensures { (v w : Bool) (one other : Recorded) → IsRecording one → IsRecording other → (v || are_standard one.config.weights) ≡ true → (w || are_standard other.config.weights) ≡ true → records_of v one ≡ records_of w other → one ≡ other }
{}
