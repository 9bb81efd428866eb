//! Writes a recording.

ghost use Rattle.std.specs.Prelude.{◌≡◌, ◌≢◌, false, true, Err, OnOk, IfOk, ◌≤◌, IfSome};
ghost use Rattle.cam_types.specs.Watched.{device_of, has_failed, is_flushed};
ghost use Rattle.cam_types.specs.Whole.{AppendsFront};
ghost use Rattle.std.specs.Io.KnownBytes.{Appends};
ghost use Rattle.recording_file.specs.Recorded.{IsRecording, Span};
ghost use Rattle.recording_file.specs.Recordings.{IsRecordingText};
ghost use Rattle.recording_file.specs.Writing.{recording_text, head_rows};
ghost use Rattle.record_text.specs.Writing.{IsBetween, Wrote};
ghost use Rattle.std.specs.List.{AllByRecursion};
ghost use Rattle.cam_types.specs.declared.device.Device.{Device};

use crate::recording::Recording;
use crate::version::name_text;
use crate::writing::{write_caps, write_names, write_requests, write_unit};
use cam_types::{Watched, write_whole};
use csv::{Writer, WriterBuilder};
use record_text::{
    WriteFault, write_adapters, write_devices, write_links, write_one, write_row, write_weights,
};
use std::alloc::{AllocError, Global};
use std::io::Write;

/// Writes a recording and flushes it: its records by CSV's defaults, with a line feed after each, the rows of weights among
/// them. The text is made whole before anything of it is written.
pub fn write_recording<W: Write>(
    alloc: Global,
    recording: &Recording,
    writer: &mut Watched<W>,
) -> Result<(), WriteFault>
    requires { has_failed writer.old ≡ false }
    ensures written { OnOk result (Appends (W.contents (device_of writer.old)) (W.contents (device_of writer.new)) (recording_text recording.now)) }
    ensures flushed { OnOk result (is_flushed writer.new ≡ true) }
    // What is written is a text of the recording, and so read_recording gives the recording back.
    ensures text { result ≢ Err WriteFault.OutOfMemory → IsRecordingText (recording_text recording.now) recording.now }
    ensures recording { result ≢ Err WriteFault.OutOfMemory → IsRecording recording.now }
    ensures failed { result ≡ Err WriteFault.WriteFailed → has_failed writer.new ≡ true }
    ensures calm { result ≢ Err WriteFault.WriteFailed → has_failed writer.new ≡ false }
    ensures front { result ≡ Err WriteFault.WriteFailed → AppendsFront (W.contents (device_of writer.old)) (W.contents (device_of writer.new)) (recording_text recording.now) }
    ensures untouched { result ≡ Err WriteFault.OutOfMemory → writer.new ≡ writer.old }
{
    let text = recording_bytes(alloc, recording)?;
    match write_whole(writer, &text) {
        Ok(()) => Ok(()),
        Err(_) => Err(WriteFault::WriteFailed),
    }
}

/// The bytes that `write_recording` writes of a recording.
pub fn recording_bytes(alloc: Global, recording: &Recording) -> Result<Vec<u8>, AllocError>
    ensures text { IfOk result (λ text. text.items ≡ recording_text recording.now) }
    ensures read { OnOk result (IsRecordingText (recording_text recording.now) recording.now) }
    ensures recording { OnOk result (IsRecording recording.now) }
{
    let mut writer = WriterBuilder::new().from_writer(Vec::new(alloc));
    write_row(
        &mut writer,
        &[
            name_text(recording.completions()),
            b"a",
            b"b",
            b"c",
            b"d",
            b"e",
            b"f",
            b"g",
        ],
    )?;
    write_head(&mut writer, recording)?;
    write_names(&mut writer, recording.names())?;
    write_caps(&mut writer, recording.caps())?;
    write_requests(&mut writer, recording.requests())?;
    match writer.into_inner() {
        Ok(text) => Ok(text),
        Err(_) => Err(AllocError),
    }
}

// Writes the records of the unit, the rounds and the configuration.
fn write_head(writer: &mut Writer<Vec<u8>>, recording: &Recording) -> Result<(), AllocError>
    requires { IsBetween writer.old }
    ensures rows { OnOk result (Wrote writer.old writer.new (head_rows recording.now)) }
    ensures fits { OnOk result (AllByRecursion (λ (d : Device). d.target ≤ 65535) recording.now.config.devices) }
    ensures unit { OnOk result (IfSome recording.now.unit (λ (u : Span). u.count ≤ 4294967295)) }
{
    write_unit(writer, recording.unit())?;
    write_one(writer, b"rounds", recording.rounds())?;
    let config = recording.config();
    write_weights(writer, config.weights())?;
    write_links(writer, config.links())?;
    write_adapters(writer, config.adapters())?;
    write_devices(writer, config.devices())
}
