//! Reads an input to its end, with a bound that goes by its first bytes.

ghost use Rattle.std.specs.Prelude.{◌≡◌, ◌≢◌, ◌≤◌, false, true, Err, IfOk};
ghost use Rattle.cam_types.specs.Watched.{device_of, has_failed};
ghost use Rattle.recording_file.specs.Whole.{max_bytes, IsLongWhole, IsTooLong};
ghost use Rattle.recording_file.specs.Recorded.{MAX_RECORDING_BYTES};

use crate::limits::MAX_RECORDING_BYTES;
use crate::version::name_text;
use cam_types::{MAX_BYTES, Watched, WholeFault};
use std::alloc::Global;
use std::io::Read;

/// How many bytes a read asks for.
const PIECE: usize = 4096;

/// How many bytes a text may have: 268,435,456 if the first ten are `camrecord1` or `camrecord2`, else 16,777,216.
#[tactic(auto, unfolding(crate::specs::Whole::max_bytes))]
fn max_bytes(text: &[u8]) -> usize
    ensures most { result ≡ max_bytes text.now }
    ensures bound { result ≤ MAX_RECORDING_BYTES }
{
    if text.starts_with(name_text(false)) || text.starts_with(name_text(true)) {
        MAX_RECORDING_BYTES
    } else {
        MAX_BYTES
    }
}

/// Reads all bytes to the end of the input, a recording's or another's. It stops at the first error of any kind, an
/// interrupted read among them, and once more bytes came than there may be: 268,435,456 if the first ten are `camrecord1`
/// or `camrecord2`, else 16,777,216.
pub fn read_long<R: Read>(alloc: Global, reader: &mut Watched<R>) -> Result<Vec<u8>, WholeFault>
    requires { has_failed reader.old ≡ false }
    ensures whole { IfOk result (λ text. IsLongWhole (R.remaining (device_of reader.old)) (R.remaining (device_of reader.new)) text.items) }
    ensures too_long { result ≡ Err WholeFault.TooLong → IsTooLong (R.remaining (device_of reader.old)) (R.remaining (device_of reader.new)) }
    ensures read_failed { result ≡ Err WholeFault.ReadFailed → has_failed reader.new ≡ true }
    ensures calm { result ≢ Err WholeFault.ReadFailed → has_failed reader.new ≡ false }
{
    let mut text = Vec::new(alloc);
    let mut piece = [0u8; PIECE];
    while text.len() <= max_bytes(&text) {
        let Ok(count) = reader.read(&mut piece) else {
            return Err(WholeFault::ReadFailed);
        };
        if count == 0 {
            return Ok(text);
        }
        if text.extend_from_slice(&piece[..count]).is_err() {
            return Err(WholeFault::OutOfMemory);
        }
    }
    Err(WholeFault::TooLong)
}
