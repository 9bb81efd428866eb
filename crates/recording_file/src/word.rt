//! The words of a recording's records.

use record_text::is_text;

/// What the first field of a recording's record names.
#[derive(Clone, Copy)]
pub(crate) enum RecordingWord {
    Unit,
    Rounds,
    Weight,
    Link,
    Sim,
    Dev,
    Name,
    Cap,
    Request,
}

impl RecordingWord {
    ghost use Rattle.std.specs.Prelude.{◌≡◌};
    ghost use Rattle.recording_file.specs.Words.{word_of, word_rank};

    /// The word that a field spells.
    #[tactic(auto, unfolding(crate::specs::Words::word_of))]
    pub(crate) fn of(field: &[u8]) -> Option<RecordingWord>
        ensures { result ≡ word_of field.now }
    {
        let word = if is_text(field, b"request") {
            RecordingWord::Request
        } else if is_text(field, b"cap") {
            RecordingWord::Cap
        } else if is_text(field, b"name") {
            RecordingWord::Name
        } else if is_text(field, b"unit") {
            RecordingWord::Unit
        } else if is_text(field, b"rounds") {
            RecordingWord::Rounds
        } else if is_text(field, b"weight") {
            RecordingWord::Weight
        } else if is_text(field, b"link") {
            RecordingWord::Link
        } else if is_text(field, b"sim") {
            RecordingWord::Sim
        } else if is_text(field, b"dev") {
            RecordingWord::Dev
        } else {
            return None;
        };
        Some(word)
    }

    /// Where a record of this word stands: the kinds come in this order.
    pub(crate) fn rank(self) -> u32
        ensures { result ≡ word_rank self }
    {
        match self {
            RecordingWord::Unit => 0,
            RecordingWord::Rounds => 1,
            RecordingWord::Weight => 2,
            RecordingWord::Link => 3,
            RecordingWord::Sim => 4,
            RecordingWord::Dev => 5,
            RecordingWord::Name => 6,
            RecordingWord::Cap => 7,
            RecordingWord::Request => 8,
        }
    }
}
