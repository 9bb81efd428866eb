//! The versions of a recording's text, and the word that each begins with.

ghost use Rattle.std.specs.Prelude.{◌≡◌};
ghost use Rattle.csv.specs.Records.{fields_of};
ghost use Rattle.recording_file.specs.Rows.{header_at};
ghost use Rattle.recording_file.specs.Words.{name_text};

use csv::ByteRecord;
use record_text::is_header;

/// The word that a recording's text begins with. With completions it is version 2.
pub(crate) fn name_text(completions: bool) -> &'static [u8]
    ensures { result.now ≡ name_text completions }
{
    if completions {
        b"camrecord2"
    } else {
        b"camrecord1"
    }
}

/// Whether completions are recorded, as a header says by its word. None if the record is no header.
#[tactic(auto, unfolding(crate::specs::Rows::header_at))]
pub(crate) fn header_at(row: &ByteRecord) -> Option<bool>
    ensures { result ≡ header_at (fields_of row.now) }
{
    if is_header(name_text(false), row) {
        Some(false)
    } else if is_header(name_text(true), row) {
        Some(true)
    } else {
        None
    }
}
