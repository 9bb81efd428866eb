//! The typed fields of a record: numbers, optional numbers and words, and the first field that fails.

ghost use Rattle.std.specs.Prelude.{◌≡◌, ◌<◌, ◌≤◌, ◌+◌, length, IfOk, bytes_eq};
ghost use Rattle.csv.specs.Records.{fields_of};
ghost use Rattle.record_text.specs.Fields.{field_of, number_at, optional_at, within_at, below_at, unused, unused_from, formed};

use cam_types::read_number;
use csv::ByteRecord;

/// How many fields a record has.
const FIELDS: u32 = 8;

/// The field at a place from 0 on, which has no byte where the record is shorter.
pub fn field(row: &ByteRecord, at: u32) -> &[u8]
    ensures { result.now ≡ field_of (fields_of row.now) at }
{
    match row.get(at as usize) {
        Some(field) => field,
        None => b"",
    }
}

/// Whether a field has these bytes.
pub fn is_text(field: &[u8], text: &[u8]) -> bool
    ensures { result ≡ bytes_eq field.now text.now }
{
    field == text
}

/// The number of at most `most` that the field at this place spells, or else the field's number.
#[tactic(auto, unfolding(crate::specs::Fields::number_at))]
pub fn number_at(row: &ByteRecord, at: u32, most: u32) -> Result<u32, u32>
    requires { at < 8 }
    ensures value { result ≡ number_at (fields_of row.now) at most }
    ensures within { IfOk result (λ n. n ≤ most) }
{
    match read_number(field(row, at), u64::from(most)) {
        Some(number) => Ok(number as u32),
        None => Err(at + 1),
    }
}

/// The same, or none where the field at this place has no byte.
#[tactic(auto, unfolding(crate::specs::Fields::optional_at))]
pub fn optional_at(row: &ByteRecord, at: u32, most: u32) -> Result<Option<u32>, u32>
    requires { at < 8 }
    ensures { result ≡ optional_at (fields_of row.now) at most }
{
    if field(row, at).is_empty() {
        return Ok(None);
    }
    let number = number_at(row, at, most)?;
    Ok(Some(number))
}

/// The number from `least` to `most` that the field at this place spells, or else the field's number.
#[tactic(auto, unfolding(crate::specs::Fields::within_at))]
pub fn within_at(row: &ByteRecord, at: u32, least: u32, most: u32) -> Result<u32, u32>
    requires { at < 8 }
    ensures value { result ≡ within_at (fields_of row.now) at least most }
    ensures within { IfOk result (λ n. (least ≤ n) × (n ≤ most)) }
{
    let number = number_at(row, at, most)?;
    if least <= number {
        Ok(number)
    } else {
        Err(at + 1)
    }
}

/// The number below `count` that the field at this place spells, or else the field's number.
#[tactic(auto, unfolding(crate::specs::Fields::below_at))]
pub fn below_at(row: &ByteRecord, at: u32, count: u32) -> Result<u32, u32>
    requires { at < 8 }
    ensures value { result ≡ below_at (fields_of row.now) at count }
    ensures below { IfOk result (λ n. n < count) }
{
    let number = number_at(row, at, u32::MAX)?;
    if number < count {
        Ok(number)
    } else {
        Err(at + 1)
    }
}

/// Whether the fields from this place on have no byte, or else the number of the first that has one.
#[tactic(auto, using(crate::proofs::FieldLemmas::unused_step, crate::proofs::FieldLemmas::unused_found), unfolding(crate::specs::Fields::unused_from))]
pub fn unused_from(row: &ByteRecord, at: u32) -> Result<(), u32>
    requires inside { at ≤ 8 }
    requires eight { length (fields_of row.now) ≡ 8 }
    ensures { result ≡ unused_from (fields_of row.now) at }
{
    for place in at..FIELDS {
        if !field(row, place).is_empty() {
            return Err(place + 1);
        }
    }
    Ok(())
}
