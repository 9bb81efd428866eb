//! Reads a script.

ghost use Rattle.std.specs.Prelude.{◌≡◌, ◌≢◌, ◌<◌, ◌≤◌, ℕ, [], false, get_or, length, Ok, Err, IfOk, IfErr, IfSome};
ghost use Rattle.cam_types.specs.declared.limits.TheConstants.{MAX_BYTES};
ghost use Rattle.cam_types.specs.Watched.{device_of, has_failed};
ghost use Rattle.trace_file.specs.Script.{ExplainsScript, IsManuscript, IsScript, Manuscript, WasScript, answers_of, scenario_of, steps_of};
ghost use Rattle.trace_file.specs.ScriptReading.{script_reading};
ghost use Rattle.record_text.specs.Text.{records_in};

use crate::script::Script;
use crate::script_parser::ScriptParser;
use crate::trace_fault::TraceFault;
use cam_types::{Watched, WholeFault, read_whole};
use record_text::{front, take_records};
use std::alloc::Global;
use std::io::Read;

/// Reads a script to the end of the input. A fault of the text names the first record that fails, and the first test
/// that it fails: of its length, word, place and number; of its fields; of the configuration's rules; of the static
/// causes that refuse it. `ReadFailed` and `TooLong` come before any of these.
pub fn read_script<R: Read>(alloc: Global, reader: &mut Watched<R>) -> Result<Script, TraceFault>
    requires { has_failed reader.old ≡ false }
    // What is read is a script, and a script is read.
    ensures found { IfOk result (λ s. WasScript (R.remaining (device_of reader.old)) (R.remaining (device_of reader.new)) s) }
    ensures only { (m : Manuscript) → IsManuscript m → IfSome (R.remaining (device_of reader.old)) (λ all. IsScript all m →
        result ≢ Err TraceFault.OutOfMemory → result ≢ Err TraceFault.ReadFailed → result ≡ Ok (scenario_of m)) }

    ensures faults { IfErr result (ExplainsScript (R.remaining (device_of reader.old)) (R.remaining (device_of reader.new)) (has_failed reader.new)) }
    ensures calm { result ≢ Err TraceFault.ReadFailed → has_failed reader.new ≡ false }
{
    match read_whole(alloc, reader) {
        Ok(text) => read_script_text(alloc, &text),
        Err(WholeFault::TooLong) => Err(TraceFault::TooLong),
        Err(WholeFault::ReadFailed) => Err(TraceFault::ReadFailed),
        Err(WholeFault::OutOfMemory) => Err(TraceFault::OutOfMemory),
    }
}

fn read_script_text(alloc: Global, text: &[u8]) -> Result<Script, TraceFault>
    requires { length text.now ≤ MAX_BYTES }
    ensures { result ≢ Err TraceFault.OutOfMemory → result ≡ script_reading (records_in text.now) }
{
    take_records(alloc, front(text), ScriptParser::Header)?.finish(alloc)
}

/// A driver's steps are its rows in order, and a lane's answers are its `answer` rows in order.
pub fn rows_in_order()
    ensures drivers { (m : Manuscript) → (driver : ℕ) → driver < 8 → get_or (scenario_of m).drivers driver [] ≡ steps_of m.config driver m.rows }
    ensures lanes { (m : Manuscript) → (lane : ℕ) → lane < length m.config.lanes → get_or (scenario_of m).answers lane [] ≡ answers_of m.config lane m.rows }
{}
