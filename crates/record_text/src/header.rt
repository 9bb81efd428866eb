//! Whether a record is the header.

ghost use Rattle.std.specs.Prelude.{◌≡◌};
ghost use Rattle.csv.specs.Records.{fields_of};
ghost use Rattle.record_text.specs.Header.{has_letters, is_header};

use crate::fields::{field, is_text};
use csv::ByteRecord;

/// Whether a record is the header of this name.
#[tactic(auto, unfolding(crate::specs::Header::is_header))]
pub fn is_header(name: &[u8], row: &ByteRecord) -> bool
    ensures { result ≡ is_header name.now (fields_of row.now) }
{
    row.len() == 8 && is_text(field(row, 0), name) && has_letters(row)
}

#[tactic(auto, unfolding(crate::specs::Header::has_letters))]
fn has_letters(row: &ByteRecord) -> bool
    ensures { result ≡ has_letters (fields_of row.now) }
{
    is_text(field(row, 1), b"a")
        && is_text(field(row, 2), b"b")
        && is_text(field(row, 3), b"c")
        && is_text(field(row, 4), b"d")
        && is_text(field(row, 5), b"e")
        && is_text(field(row, 6), b"f")
        && is_text(field(row, 7), b"g")
}
