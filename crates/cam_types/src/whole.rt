//! Reads an input to its end, and writes a text whole.

ghost use Rattle.std.specs.Prelude.{◌≡◌, ◌≢◌, ◌<◌, ◌^◌, false, true, Ok, Err, IfOk, OnOk, OnErr};
ghost use Rattle.std.specs.Io.KnownBytes.{Appends};
ghost use Rattle.cam_types.specs.Watched.{device_of, has_failed, is_flushed};
ghost use Rattle.cam_types.specs.Whole.{IsWhole, IsTooLong, IsWholeWithin, IsLongerThan, AppendsFront};

use crate::limits::MAX_BYTES;
use crate::watched::Watched;
use std::alloc::Global;
use std::io::{Read, Write};
use thiserror::Error;

/// How many bytes a read asks for.
const PIECE: usize = 4096;

/// Why an input wasn't read to its end.
#[derive(Clone, Copy, Debug, PartialEq, Eq, Error)]
pub enum WholeFault {
    /// More bytes came than there may be.
    #[error("too long")]
    TooLong,
    /// A read failed.
    #[error("read failed")]
    ReadFailed,
    /// There is no memory left.
    #[error("out of memory")]
    OutOfMemory,
}

/// A text that wasn't written whole, or not flushed.
#[derive(Clone, Copy, Debug, PartialEq, Eq, Error)]
#[error("write failed")]
pub struct WriteFailed;

/// Reads all bytes to the end of the input. It stops at the first error of any kind, an interrupted read among them,
/// and once more than 16,777,216 bytes came.
pub fn read_whole<R: Read>(alloc: Global, reader: &mut Watched<R>) -> Result<Vec<u8>, WholeFault>
    requires { has_failed reader.old ≡ false }
    ensures whole { IfOk result (λ text. IsWhole (R.remaining (device_of reader.old)) (R.remaining (device_of reader.new)) text.items) }
    ensures too_long { result ≡ Err WholeFault.TooLong → IsTooLong (R.remaining (device_of reader.old)) (R.remaining (device_of reader.new)) }
    ensures read_failed { result ≡ Err WholeFault.ReadFailed → has_failed reader.new ≡ true }
    ensures calm { result ≢ Err WholeFault.ReadFailed → has_failed reader.new ≡ false }
{
    read_within(alloc, reader, MAX_BYTES)
}

/// The same with a bound of one's own, below 2^31: it stops once more than `most` bytes came.
pub fn read_within<R: Read>(
    alloc: Global,
    reader: &mut Watched<R>,
    most: usize,
) -> Result<Vec<u8>, WholeFault>
    requires calm { has_failed reader.old ≡ false }
    requires most { most < 2 ^ 31 }
    ensures whole { IfOk result (λ text. IsWholeWithin most (R.remaining (device_of reader.old)) (R.remaining (device_of reader.new)) text.items) }
    ensures too_long { result ≡ Err WholeFault.TooLong → IsLongerThan most (R.remaining (device_of reader.old)) (R.remaining (device_of reader.new)) }
    ensures read_failed { result ≡ Err WholeFault.ReadFailed → has_failed reader.new ≡ true }
    ensures calm { result ≢ Err WholeFault.ReadFailed → has_failed reader.new ≡ false }
{
    let mut text = Vec::new(alloc);
    let mut piece = [0u8; PIECE];
    while text.len() <= most {
        let Ok(count) = reader.read(&mut piece) else {
            return Err(WholeFault::ReadFailed);
        };
        if count == 0 {
            return Ok(text);
        }
        if text.extend_from_slice(&piece[..count]).is_err() {
            return Err(WholeFault::OutOfMemory);
        }
    }
    Err(WholeFault::TooLong)
}

/// Writes all of the text and flushes it. It stops at the first error of any kind, and at a write that takes no byte;
/// what was written is then the front of the text.
pub fn write_whole<W: Write>(writer: &mut Watched<W>, text: &[u8]) -> Result<(), WriteFailed>
    requires { has_failed writer.old ≡ false }
    ensures flushed { OnOk result (is_flushed writer.new ≡ true) }
    ensures written { OnOk result (Appends (W.contents (device_of writer.old)) (W.contents (device_of writer.new)) text.now) }
    ensures front { OnErr result (AppendsFront (W.contents (device_of writer.old)) (W.contents (device_of writer.new)) text.now) }
    ensures failed { OnErr result (has_failed writer.new ≡ true) }
    ensures calm { OnOk result (has_failed writer.new ≡ false) }
{
    let mut written = 0;
    while written < text.len() {
        let Ok(taken) = writer.write(&text[written..]) else {
            return Err(WriteFailed);
        };
        if taken == 0 {
            return Err(WriteFailed);
        }
        written += taken;
    }
    if writer.flush().is_err() {
        return Err(WriteFailed);
    }
    Ok(())
}
