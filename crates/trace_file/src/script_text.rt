//! Writes a script.

ghost use Rattle.std.specs.Prelude.{◌≡◌, ◌≢◌, false, true, Err, OnOk, IfOk};
ghost use Rattle.std.specs.Io.KnownBytes.{Appends};
ghost use Rattle.cam_types.specs.Watched.{device_of, has_failed, is_flushed};
ghost use Rattle.cam_types.specs.Whole.{AppendsFront};
ghost use Rattle.trace_file.specs.Script.{IsManuscript, IsScript, scenario_of};
ghost use Rattle.trace_file.specs.ScriptWriting.{manuscript_of, script_text};

use crate::script::Script;
use crate::script_version::ScriptVersion;
use crate::script_writing::{write_answers, write_drivers, write_limits};
use crate::writing::write_config;
use cam_types::{Watched, write_whole};
use csv::WriterBuilder;
use record_text::{WriteFault, write_row};
use std::alloc::{AllocError, Global};
use std::io::Write;

/// Writes a script and flushes it, in version 1 if it has the standard weights and no link, and else in version 2: its limits,
/// its configuration, the steps of each driver in order, driver by driver, and the answers of each lane in order, lane by
/// lane. The records are by CSV's defaults, with a line feed after each. The text is made whole before anything of it is
/// written.
///
/// # Errors
///
/// `WriteFailed` if a write or the flush failed: a part of the text may have been written, from its start. `OutOfMemory` if
/// no memory is left: nothing was written.
pub fn write_script<W: Write>(
    alloc: Global,
    script: &Script,
    writer: &mut Watched<W>,
) -> Result<(), WriteFault>
    requires { has_failed writer.old ≡ false }
    ensures written { OnOk result (Appends (W.contents (device_of writer.old)) (W.contents (device_of writer.new)) (script_text script.now)) }
    ensures flushed { OnOk result (is_flushed writer.new ≡ true) }
    // What is written is a text of the script, and so read_script gives the script back.
    ensures script { result ≢ Err WriteFault.OutOfMemory → IsScript (script_text script.now) (manuscript_of script.now) }
    ensures kept { result ≢ Err WriteFault.OutOfMemory → IsManuscript (manuscript_of script.now) }
    ensures same { result ≢ Err WriteFault.OutOfMemory → scenario_of (manuscript_of script.now) ≡ script.now }
    ensures failed { result ≡ Err WriteFault.WriteFailed → has_failed writer.new ≡ true }
    ensures calm { result ≢ Err WriteFault.WriteFailed → has_failed writer.new ≡ false }
    ensures front { result ≡ Err WriteFault.WriteFailed → AppendsFront (W.contents (device_of writer.old)) (W.contents (device_of writer.new)) (script_text script.now) }
    ensures untouched { result ≡ Err WriteFault.OutOfMemory → writer.new ≡ writer.old }
{
    let text = text_of(alloc, script)?;
    match write_whole(writer, &text) {
        Ok(()) => Ok(()),
        Err(_) => Err(WriteFault::WriteFailed),
    }
}

// The text of a script.
fn text_of(alloc: Global, script: &Script) -> Result<Vec<u8>, AllocError>
    ensures text { IfOk result (λ t. t.items ≡ script_text script.now) }
    ensures script { OnOk result (IsScript (script_text script.now) (manuscript_of script.now)) }
    ensures kept { OnOk result (IsManuscript (manuscript_of script.now)) }
    ensures same { OnOk result (scenario_of (manuscript_of script.now) ≡ script.now) }
{
    let config = script.config();
    let version = ScriptVersion::least(config);
    let mut writer = WriterBuilder::new().from_writer(Vec::new(alloc));
    write_row(
        &mut writer,
        &[version.name(), b"a", b"b", b"c", b"d", b"e", b"f", b"g"],
    )?;
    write_limits(&mut writer, script.limits())?;
    write_config(&mut writer, version.traces(), config)?;
    write_drivers(alloc, &mut writer, config, script.drivers())?;
    write_answers(alloc, &mut writer, script.answers())?;
    match writer.into_inner() {
        Ok(text) => Ok(text),
        Err(_) => Err(AllocError),
    }
}
