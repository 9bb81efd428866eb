//! Writes the trace of a history.

ghost use Rattle.std.specs.Prelude.{◌≡◌, ◌≢◌, false, true, Err, OnOk, IfOk};
ghost use Rattle.cam_types.specs.Watched.{device_of, has_failed, is_flushed};
ghost use Rattle.cam_types.specs.Whole.{AppendsFront};
ghost use Rattle.std.specs.Io.KnownBytes.{Appends};
ghost use Rattle.trace_file.specs.Records.{holds};
ghost use Rattle.trace_file.specs.Trace.{IsHistory, IsTrace};
ghost use Rattle.trace_file.specs.Writing.{text_in, trace_text, migrated_text};

use crate::version::Version;
use crate::writing::{write_config, write_events};
use cam_event::History;
use cam_types::{Watched, write_whole};
use csv::WriterBuilder;
use record_text::{WriteFault, write_row};
use std::alloc::{AllocError, Global};
use std::io::Write;

/// Writes the trace of a history and flushes it: its records by CSV's defaults, with a line feed after each, in the least
/// version that holds the history: 3 if it has links, else 2 if the weights aren't the standard ones, and else 1. The text is
/// made whole before anything of it is written.
pub fn write_trace<W: Write>(
    alloc: Global,
    history: &History,
    writer: &mut Watched<W>,
) -> Result<(), WriteFault>
    requires { has_failed writer.old ≡ false }
    ensures written { OnOk result (Appends (W.contents (device_of writer.old)) (W.contents (device_of writer.new)) (trace_text history.now)) }
    ensures flushed { OnOk result (is_flushed writer.new ≡ true) }
    // What is written is a trace of the history, and so read_trace gives the history back.
    ensures trace { result ≢ Err WriteFault.OutOfMemory → IsTrace (trace_text history.now) history.now }
    ensures legal { result ≢ Err WriteFault.OutOfMemory → IsHistory history.now }
    ensures failed { result ≡ Err WriteFault.WriteFailed → has_failed writer.new ≡ true }
    ensures calm { result ≢ Err WriteFault.WriteFailed → has_failed writer.new ≡ false }
    ensures front { result ≡ Err WriteFault.WriteFailed → AppendsFront (W.contents (device_of writer.old)) (W.contents (device_of writer.new)) (trace_text history.now) }
    ensures untouched { result ≡ Err WriteFault.OutOfMemory → writer.new ≡ writer.old }
{
    write_in(alloc, Version::least(history.config()), history, writer)
}

/// The same in the newest version, 3, which any history can be written in.
pub fn migrate_trace<W: Write>(
    alloc: Global,
    history: &History,
    writer: &mut Watched<W>,
) -> Result<(), WriteFault>
    requires { has_failed writer.old ≡ false }
    ensures written { OnOk result (Appends (W.contents (device_of writer.old)) (W.contents (device_of writer.new)) (migrated_text history.now)) }
    ensures flushed { OnOk result (is_flushed writer.new ≡ true) }
    ensures trace { result ≢ Err WriteFault.OutOfMemory → IsTrace (migrated_text history.now) history.now }
    ensures legal { result ≢ Err WriteFault.OutOfMemory → IsHistory history.now }
    ensures failed { result ≡ Err WriteFault.WriteFailed → has_failed writer.new ≡ true }
    ensures calm { result ≢ Err WriteFault.WriteFailed → has_failed writer.new ≡ false }
    ensures front { result ≡ Err WriteFault.WriteFailed → AppendsFront (W.contents (device_of writer.old)) (W.contents (device_of writer.new)) (migrated_text history.now) }
    ensures untouched { result ≡ Err WriteFault.OutOfMemory → writer.new ≡ writer.old }
{
    write_in(alloc, Version::Three, history, writer)
}

/// The bytes that `write_trace` writes of a history.
pub fn trace_bytes(alloc: Global, history: &History) -> Result<Vec<u8>, AllocError>
    ensures text { IfOk result (λ text. text.items ≡ trace_text history.now) }
    ensures trace { OnOk result (IsTrace (trace_text history.now) history.now) }
{
    text_in(alloc, Version::least(history.config()), history)
}

// Writes the trace in a version that holds the history.
fn write_in<W: Write>(
    alloc: Global,
    version: Version,
    history: &History,
    writer: &mut Watched<W>,
) -> Result<(), WriteFault>
    requires calm { has_failed writer.old ≡ false }
    requires held { holds version history.now.config ≡ true }
    ensures written { OnOk result (Appends (W.contents (device_of writer.old)) (W.contents (device_of writer.new)) (text_in version history.now)) }
    ensures flushed { OnOk result (is_flushed writer.new ≡ true) }
    ensures trace { result ≢ Err WriteFault.OutOfMemory → IsTrace (text_in version history.now) history.now }
    ensures legal { result ≢ Err WriteFault.OutOfMemory → IsHistory history.now }
    ensures failed { result ≡ Err WriteFault.WriteFailed → has_failed writer.new ≡ true }
    ensures calm { result ≢ Err WriteFault.WriteFailed → has_failed writer.new ≡ false }
    ensures front { result ≡ Err WriteFault.WriteFailed → AppendsFront (W.contents (device_of writer.old)) (W.contents (device_of writer.new)) (text_in version history.now) }
    ensures untouched { result ≡ Err WriteFault.OutOfMemory → writer.new ≡ writer.old }
{
    let text = text_in(alloc, version, history)?;
    match write_whole(writer, &text) {
        Ok(()) => Ok(()),
        Err(_) => Err(WriteFault::WriteFailed),
    }
}

// The text of a history's records in a version.
fn text_in(alloc: Global, version: Version, history: &History) -> Result<Vec<u8>, AllocError>
    requires { holds version history.now.config ≡ true }
    ensures text { IfOk result (λ t. t.items ≡ text_in version history.now) }
    ensures trace { OnOk result (IsTrace (text_in version history.now) history.now) }
    ensures legal { OnOk result (IsHistory history.now) }
{
    let mut writer = WriterBuilder::new().from_writer(Vec::new(alloc));
    write_row(
        &mut writer,
        &[version.name(), b"a", b"b", b"c", b"d", b"e", b"f", b"g"],
    )?;
    write_config(&mut writer, version, history.config())?;
    write_events(&mut writer, history.events())?;
    match writer.into_inner() {
        Ok(text) => Ok(text),
        Err(_) => Err(AllocError),
    }
}
