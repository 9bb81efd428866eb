//! Reads what a record says.

ghost use Rattle.std.specs.Prelude.{◌≡◌, ◌≢◌, length, Err, IfOk, ◌≤◌, true};
ghost use Rattle.csv.specs.Records.{fields_of};
ghost use Rattle.recording_file.specs.Counts.{counts_of};
ghost use Rattle.recording_file.specs.Caps.{is_next_cap, is_cap};
ghost use Rattle.record_text.specs.Fields.{field_of};
ghost use Rattle.recording_file.specs.Names.{is_name_text, is_next_name, is_name};
ghost use Rattle.recording_file.specs.Reading.{in_record, recorded_of, parsed_by, parsed_name, parsed_cap, says};
ghost use Rattle.recording_file.specs.Recorded.{Recorded};
ghost use Rattle.recording_file.specs.Rows.{text_at, span_at, rounds_at, request_at};
ghost use Rattle.record_text.specs.ConfigRows.{weight_at, one_number, adapter_at, device_at};
ghost use Rattle.recording_file.specs.Sound.{IsSound};
ghost use Rattle.recording_file.specs.RowParsing.{IsNaming};

use crate::cap::Cap;
use crate::counts::Counts;
use crate::name::{Name, NameKind};
use crate::named_rows::{capped_at, most_at, named_at};
use crate::parsed_row::ParsedRow;
use crate::part::Part;
use crate::recording_fault::RecordingFault;
use crate::recording_parser::RecordingParser;
use crate::rows::{request_at, rounds_at, span_at};
use crate::word::RecordingWord;
use csv::ByteRecord;
use record_text::{adapter_at, device_at, field, one_number, unused_from, weight_at};
use std::alloc::Global;

/// A field without its form is a fault of the record.
pub(crate) fn in_record<T>(number: u32, read: Result<T, u32>) -> Result<T, RecordingFault>
    ensures { result ≡ in_record number read }
{
    match read {
        Ok(value) => Ok(value),
        Err(field) => Err(RecordingFault::BadField(number, field)),
    }
}

impl RecordingParser {
    /// What a record of this word says, or its fault.
    #[tactic(auto, unfolding(crate::specs::Reading::parsed_by))]
    pub(crate) fn parsed(
        &self,
        alloc: Global,
        number: u32,
        word: RecordingWord,
        row: &ByteRecord,
    ) -> Result<ParsedRow, RecordingFault>
        requires eight { length (fields_of row.now) ≡ 8 }
        requires sound { IsSound self.now }
        requires parser { IsNaming self.now word }
        ensures { result ≢ Err RecordingFault.OutOfMemory → result ≡ parsed_by number (recorded_of self.now) word (fields_of row.now) }
    {
        match word {
            RecordingWord::Unit => Ok(ParsedRow::Unit(in_record(number, span_at(row))?)),
            RecordingWord::Rounds => Ok(ParsedRow::Rounds(in_record(number, rounds_at(row))?)),
            RecordingWord::Weight => Ok(ParsedRow::Weight(in_record(number, weight_at(row))?)),
            RecordingWord::Link => Ok(ParsedRow::Link(in_record(number, one_number(row))?)),
            RecordingWord::Sim => Ok(ParsedRow::Sim(in_record(number, adapter_at(row))?)),
            RecordingWord::Dev => Ok(ParsedRow::Dev(in_record(number, device_at(row))?)),
            RecordingWord::Name => self.parsed_name(alloc, number, row),
            RecordingWord::Cap => self.parsed_cap(number, row),
            RecordingWord::Request => {
                let request = in_record(number, request_at(self.completions(), row))?;
                Ok(ParsedRow::Request(request))
            }
        }
    }

    #[tactic(auto, unfolding(crate::specs::Reading::parsed_name))]
    fn parsed_name(
        &self,
        alloc: Global,
        number: u32,
        row: &ByteRecord,
    ) -> Result<ParsedRow, RecordingFault>
        requires eight { length (fields_of row.now) ≡ 8 }
        requires sound { IsSound self.now }
        requires parser { IsNaming self.now RecordingWord.Name }
        ensures { result ≢ Err RecordingFault.OutOfMemory → result ≡ parsed_name number (recorded_of self.now) (fields_of row.now) }
    {
        let (kind, named) = in_record(number, named_at(self.counts(), row))?;
        if !self.is_next_name(kind, named) {
            return Err(RecordingFault::BadRecord(number));
        }
        name_at(alloc, number, kind, named, row)
    }

    #[tactic(auto, unfolding(crate::specs::Reading::parsed_cap))]
    fn parsed_cap(&self, number: u32, row: &ByteRecord) -> Result<ParsedRow, RecordingFault>
        requires eight { length (fields_of row.now) ≡ 8 }
        requires sound { IsSound self.now }
        requires parser { IsNaming self.now RecordingWord.Cap }
        ensures { result ≡ parsed_cap number (recorded_of self.now) (fields_of row.now) }
    {
        let rounds = self.rounds();
        let (part, first) = in_record(number, capped_at(rounds, self.counts(), row))?;
        if !self.is_next_cap(part, first) {
            return Err(RecordingFault::BadRecord(number));
        }
        let (last, most) = in_record(number, most_at(rounds, first, row))?;
        Ok(ParsedRow::Cap(Cap {
            part,
            first,
            last,
            most,
        }))
    }

    // How many devices, adapters and links there are.
    #[tactic(auto, unfolding(crate::specs::Sound::IsSound))]
    fn counts(&self) -> Counts
        requires sound { IsSound self.now }
        requires parser { IsNaming self.now RecordingWord.Name }
        ensures { result ≡ counts_of (recorded_of self.now).config }
    {
        match self {
            RecordingParser::Config(_, parser) => bare_counts(parser.partial.link_count()),
            RecordingParser::Book(recorder) => recorder.counts(),
            _ => unreachable!(),
        }
    }

    fn rounds(&self) -> u32
        requires { IsNaming self.now RecordingWord.Name }
        ensures { result ≡ (recorded_of self.now).rounds }
    {
        match self {
            RecordingParser::Config(start, _) => start.rounds,
            RecordingParser::Book(recorder) => recorder.rounds(),
            _ => unreachable!(),
        }
    }

    // Whether completions are recorded.
    fn completions(&self) -> bool
        ensures { result ≡ (recorded_of self.now).completions }
    {
        match self {
            RecordingParser::Header => false,
            RecordingParser::First(completions) => *completions,
            RecordingParser::Timed(completions, _) => *completions,
            RecordingParser::Config(start, _) => start.completions,
            RecordingParser::Book(recorder) => recorder.completions(),
        }
    }

    fn is_next_name(&self, kind: NameKind, number: u32) -> bool
        ensures { result ≡ is_next_name (recorded_of self.now).names kind number }
    {
        match self {
            RecordingParser::Book(recorder) => recorder.is_next_name(kind, number),
            _ => true,
        }
    }

    fn is_next_cap(&self, part: Part, first: u32) -> bool
        ensures { result ≡ is_next_cap (recorded_of self.now).caps part first }
    {
        match self {
            RecordingParser::Book(recorder) => recorder.is_next_cap(part, first),
            _ => true,
        }
    }
}

fn bare_counts(links: u32) -> Counts
    ensures { result ≡ record { devices = 0; adapters = 0; links = links } }
{
    Counts {
        devices: 0,
        adapters: 0,
        links,
    }
}

// The name of a record, whose kind and number were read.
#[tactic(auto, unfolding(crate::specs::Rows::text_at))]
fn name_at(
    alloc: Global,
    number: u32,
    kind: NameKind,
    named: u32,
    row: &ByteRecord,
) -> Result<ParsedRow, RecordingFault>
    requires { length (fields_of row.now) ≡ 8 }
    ensures { result ≢ Err RecordingFault.OutOfMemory → result ≡ says number (text_at (fields_of row.now)) (λ text. ParsedRow.Name (record { kind = kind; number = named; text = text })) }
{
    let name = match Name::new(alloc, kind, named, field(row, 3)) {
        Ok(Some(name)) => name,
        Ok(None) => return Err(RecordingFault::BadField(number, 4)),
        Err(_) => return Err(RecordingFault::OutOfMemory),
    };
    in_record(number, unused_from(row, 4))?;
    Ok(ParsedRow::Name(name))
}
