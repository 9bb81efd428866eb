//! Where a record of a text stands.

ghost use Rattle.std.specs.Prelude.{IfSome};
ghost use Rattle.csv.specs.Records.{fields_of};
ghost use Rattle.views.specs.Numbered.{IsNumbered};

use csv::{ByteRecord, ByteRecordsIntoIter, ReaderBuilder};
use std::alloc::Global;

/// Where a record begins.
#[derive(Clone, Copy)]
pub(crate) struct Place {
    /// The number of its line, from 1.
    pub(crate) line: u64,
    /// The offset of its first byte.
    pub(crate) byte: usize,
}

/// Where the record of this number begins, counted from 1. There is none if the text has fewer, or no memory is left.
pub(crate) fn place_of(alloc: Global, text: &[u8], record: u32) -> Option<Place> {
    begins(text, &record_at(alloc, text, record)?)
}

/// The record of this number, counted from 1. There is none if the text has fewer, or no memory is left.
pub(crate) fn record_at(alloc: Global, text: &[u8], number: u32) -> Option<ByteRecord>
    ensures { IfSome result (λ row. IsNumbered text.now number (fields_of row)) }
{
    let reader = ReaderBuilder::new()
        .has_headers(false)
        .flexible(true)
        .from_reader(alloc, text);
    let mut left = number.saturating_sub(1);
    for row in reader.into_byte_records() {
        let Ok(row) = row else {
            return None;
        };
        if left == 0 {
            return Some(row);
        }
        left -= 1;
    }
    None
}

/// The records of a text, with any number of fields.
pub(crate) fn records(alloc: Global, text: &[u8]) -> ByteRecordsIntoIter<&[u8]> {
    ReaderBuilder::new()
        .has_headers(false)
        .flexible(true)
        .from_reader(alloc, text)
        .into_byte_records()
}

// Where a record of the text begins.
fn begins(text: &[u8], row: &ByteRecord) -> Option<Place> {
    let position = row.position()?;
    let byte = usize::try_from(position.byte()).ok()?;
    Some(behind_breaks(text, byte, position.line()))
}

// The first place from this byte of this line on where no line breaks: empty lines are no records.
fn behind_breaks(text: &[u8], byte: usize, line: u64) -> Place {
    let mut place = Place { line, byte };
    for next in text.get(byte..).unwrap_or(&[]) {
        match next {
            b'\n' => place.line = place.line.saturating_add(1),
            b'\r' => {}
            _ => return place,
        }
        place.byte = place.byte.saturating_add(1);
    }
    place
}
