//! One step of reading a recording.

ghost use Rattle.std.specs.Prelude.{◌≡◌, ◌≢◌, length, Err, IfOk};
ghost use Rattle.csv.specs.Records.{fields_of};
ghost use Rattle.recording_file.specs.Reading.{row_step, take_word};
ghost use Rattle.recording_file.specs.RowParsing.{IsAt, ready_for};
ghost use Rattle.recording_file.specs.Sound.{IsSound};

use crate::recording_fault::RecordingFault;
use crate::recording_parser::RecordingParser;
use crate::version::header_at;
use crate::word::RecordingWord;
use csv::ByteRecord;
use record_text::Parser;
use std::alloc::Global;

impl RecordingParser {
    // A record of this word, or its fault.
    fn take_word(
        self,
        alloc: Global,
        number: u32,
        word: RecordingWord,
        row: &ByteRecord,
    ) -> Result<RecordingParser, RecordingFault>
        requires sound { IsSound self }
        requires at { IsAt self word }
        requires eight { length (fields_of row.now) ≡ 8 }
        ensures value { result ≢ Err RecordingFault.OutOfMemory → result ≡ take_word number self word (fields_of row.now) }
        ensures sound { IfOk result (λ s. IsSound s) }
    {
        match self.parsed(alloc, number, word, row) {
            Ok(parsed) => self.apply_parsed(alloc, number, parsed),
            Err(fault) => Err(fault),
        }
    }

    // The parser at which a record of this word is taken.
    fn ready_for(self, alloc: Global, word: RecordingWord) -> RecordingParser
        requires { IsSound self }
        ensures value { result ≡ ready_for self word }
        ensures sound { IsSound result }
    {
        if word.rank() < 6 {
            self
        } else {
            self.booked(alloc)
        }
    }

    /// A record after the header, or its fault.
    #[tactic(auto, unfolding(crate::specs::Reading::row_step))]
    pub(crate) fn take_row(
        self,
        alloc: Global,
        number: u32,
        row: &ByteRecord,
    ) -> Result<RecordingParser, RecordingFault>
        requires { IsSound self }
        ensures value { result ≢ Err RecordingFault.OutOfMemory → result ≡ row_step number self (fields_of row.now) }
        ensures sound { IfOk result (λ s. IsSound s) }
    {
        match self.placed(row) {
            Some(word) => self
                .ready_for(alloc, word)
                .take_word(alloc, number, word, row),
            None => Err(RecordingFault::BadRecord(number)),
        }
    }
}

impl Parser for RecordingParser {
    type Fault = RecordingFault;

    ghost use Rattle.recording_file.specs.declared.recording_fault.RecordingFault.{RecordingFault};
    ghost use Rattle.recording_file.specs.Reading.{step};
    ghost use Rattle.recording_file.specs.Sound.{IsSound};

    ghost step = { step };

    ghost is_sound = { IsSound };

    ghost refused = { RecordingFault.OutOfMemory };

    fn out_of_memory() -> RecordingFault {
        RecordingFault::OutOfMemory
    }

    #[tactic(auto, using(crate::proofs::ParserLemmas::step_after_header), unfolding(crate::specs::Reading::step, crate::specs::Sound::IsSound))]
    fn take(
        self,
        alloc: Global,
        number: u32,
        row: &ByteRecord,
    ) -> Result<RecordingParser, RecordingFault> {
        match self {
            RecordingParser::Header => match header_at(row) {
                Some(completions) => Ok(RecordingParser::First(completions)),
                None => Err(RecordingFault::BadHeader),
            },
            parser => parser.take_row(alloc, number, row),
        }
    }
}
