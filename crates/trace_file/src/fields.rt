//! Parses the fields that traces and scripts alone have: bytes in hexadecimal digits, sense data and flags.

ghost use Rattle.std.specs.Prelude.{◌≡◌, ◌<◌, IfSome};
ghost use Rattle.csv.specs.Records.{fields_of};
ghost use Rattle.trace_file.specs.Fields.{hex_value, hex_byte, byte_of, byte_at, bytes_of, sense_of, sense_at, flags_of, flags_at};

use cam_types::{Flags, SenseBytes};
use csv::ByteRecord;
use record_text::{field, is_text};

/// The byte that the field at this place spells by two hexadecimal digits, or else the field's number.
#[tactic(auto, unfolding(crate::specs::Fields::byte_at))]
pub(crate) fn byte_at(row: &ByteRecord, at: u32) -> Result<u8, u32>
    requires { at < 8 }
    ensures { result ≡ byte_at (fields_of row.now) at }
{
    byte_of(field(row, at)).ok_or(at + 1)
}

/// The sense data that the field at this place spells, or else the field's number.
#[tactic(auto, unfolding(crate::specs::Fields::sense_at))]
pub(crate) fn sense_at(row: &ByteRecord, at: u32) -> Result<SenseBytes, u32>
    requires { at < 8 }
    ensures { result ≡ sense_at (fields_of row.now) at }
{
    sense_of(field(row, at)).ok_or(at + 1)
}

/// The flags that the field at this place spells, or else the field's number.
#[tactic(auto, unfolding(crate::specs::Fields::flags_at))]
pub(crate) fn flags_at(row: &ByteRecord, at: u32) -> Result<Flags, u32>
    requires { at < 8 }
    ensures { result ≡ flags_at (fields_of row.now) at }
{
    flags_of(field(row, at)).ok_or(at + 1)
}

#[tactic(auto, unfolding(crate::specs::Fields::byte_of))]
fn byte_of(field: &[u8]) -> Option<u8>
    ensures { result ≡ byte_of field.now }
{
    match field {
        [high, low] => hex_byte(*high, *low),
        _ => None,
    }
}

#[tactic(auto, unfolding(crate::specs::Fields::sense_of))]
fn sense_of(field: &[u8]) -> Option<SenseBytes>
    ensures { result ≡ sense_of field.now }
{
    if field.len() > 36 {
        return None;
    }
    if field.len() % 2 != 0 {
        return None;
    }
    let mut bytes = [0; 18];
    let count = field.len() / 2;
    for i in 0..count {
        bytes[i] = hex_byte(field[2 * i], field[2 * i + 1])?;
    }
    Some(SenseBytes::first(&bytes[..count]))
}

#[tactic(auto, unfolding(crate::specs::Fields::hex_byte))]
fn hex_byte(high: u8, low: u8) -> Option<u8>
    ensures { result ≡ hex_byte high low }
{
    let high = hex_value(high)?;
    let low = hex_value(low)?;
    Some(16 * high + low)
}

#[tactic(auto, unfolding(crate::specs::Fields::hex_value))]
fn hex_value(digit: u8) -> Option<u8>
    ensures value { result ≡ hex_value digit }
    ensures small { IfSome result (λ n. n < 16) }
{
    match digit {
        b'0'..=b'9' => Some(digit - b'0'),
        b'a'..=b'f' => Some(digit - 87),
        _ => None,
    }
}

#[tactic(auto, unfolding(crate::specs::Fields::flags_of))]
fn flags_of(field: &[u8]) -> Option<Flags>
    ensures { result ≡ flags_of field.now }
{
    let (qfreeze, qfrzdis) = if is_text(field, b"none") {
        (false, false)
    } else if is_text(field, b"qfreeze") {
        (true, false)
    } else if is_text(field, b"qfrzdis") {
        (false, true)
    } else if is_text(field, b"both") {
        (true, true)
    } else {
        return None;
    };
    Some(Flags { qfreeze, qfrzdis })
}
