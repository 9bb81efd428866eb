//! The parser of a recording, record by record.

ghost use Rattle.std.specs.Prelude.{◌≡◌, length, IfSome, true};
ghost use Rattle.csv.specs.Records.{fields_of};
ghost use Rattle.recording_file.specs.Reading.{has_place, placed, rank_of, stands, book_rank};
ghost use Rattle.recording_file.specs.Sound.{IsSound};

use crate::preamble::Start;
use crate::recorder::Recorder;
use crate::span::Span;
use crate::word::RecordingWord;
use csv::ByteRecord;
use record_text::{ConfigParser, field};

/// What was parsed of a recording so far.
#[derive(Drop)]
pub(crate) enum RecordingParser {
    /// Nothing: the header is due.
    Header,
    /// The header, which says whether completions are recorded: a unit or rounds are due.
    First(bool),
    /// That, and how long a round is: rounds are due.
    Timed(bool, Span),
    /// The rounds, and rows of a configuration.
    Config(Start, ConfigParser),
    /// A whole configuration, and names, caps and requests.
    Book(Recorder),
}

impl RecordingParser {
    /// Whether a record of this word may come next.
    #[tactic(auto, unfolding(crate::specs::Reading::stands, crate::specs::Sound::IsSound))]
    fn stands(&self, word: RecordingWord) -> bool
        requires { IsSound self.now }
        ensures { result ≡ stands self.now word }
    {
        match self {
            RecordingParser::Header => false,
            RecordingParser::First(_) => word.rank() <= 1,
            RecordingParser::Timed(..) => word.rank() == 1,
            parser => parser.rank() <= word.rank() && parser.has_place(word),
        }
    }

    // The rank of the words that may come next, and of those after them.
    #[tactic(auto, unfolding(crate::specs::Sound::IsSound))]
    fn rank(&self) -> u32
        requires { IsSound self.now }
        ensures { result ≡ rank_of self.now }
    {
        match self {
            RecordingParser::Config(_, parser) => 2 + parser.next_rank(),
            RecordingParser::Book(recorder) => book_rank(recorder),
            RecordingParser::Header | RecordingParser::First(_) | RecordingParser::Timed(..) => 2,
        }
    }

    // Whether there may be a record more of this word, for all that there is.
    fn has_place(&self, word: RecordingWord) -> bool
        ensures { result ≡ has_place self.now word }
    {
        match self {
            RecordingParser::Book(recorder) => word.rank() < 8 || recorder.has_place(),
            _ => true,
        }
    }

    /// The word of a record of eight fields that stands in its place.
    #[tactic(auto, unfolding(crate::specs::Reading::placed))]
    pub(crate) fn placed(&self, row: &ByteRecord) -> Option<RecordingWord>
        requires { IsSound self.now }
        ensures value { result ≡ placed self.now (fields_of row.now) }
        ensures eight { IfSome result (λ w. length (fields_of row.now) ≡ 8) }
        ensures place { IfSome result (λ w. stands self.now w ≡ true) }
    {
        if row.len() != 8 {
            return None;
        }
        let word = RecordingWord::of(field(row, 0))?;
        if self.stands(word) { Some(word) } else { None }
    }
}

fn book_rank(recorder: &Recorder) -> u32
    ensures { result ≡ book_rank recorder.now }
{
    if recorder.has_requests() {
        8
    } else if recorder.has_caps() {
        7
    } else {
        6
    }
}
