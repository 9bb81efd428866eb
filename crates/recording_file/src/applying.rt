//! What one record does to a recording in the making.

ghost use Rattle.std.specs.Prelude.{◌≡◌, ◌≢◌, true, length, ◌∷◌, ◌++◌, [], Err, Ok, IfOk, ℕ, ◌+◌, ◌<◌, ◌≤◌, false, if◌then◌else◌};
ghost use Rattle.csv.specs.Records.{fields_of};
ghost use Rattle.recording_file.specs.Names.{is_name};
ghost use Rattle.recording_file.specs.Caps.{is_cap};
ghost use Rattle.recording_file.specs.Counts.{counts_of};
ghost use Rattle.recording_file.specs.Reading.{add_unit, add_rounds, add_row, apply_parsed, ended, recorded_of, unless_illegal, whole};
ghost use Rattle.recording_file.specs.Recorded.{IsKept, Span, is_done_right, request_cause, MAX_RECORDED_ROUNDS, MAX_REQUESTS};
ghost use Rattle.recording_file.specs.Records.{FitsParsed, word_for};
ghost use Rattle.recording_file.specs.RowParsing.{IsAt, IsOpen, booked};
ghost use Rattle.recording_file.specs.Sound.{IsSound, MayTake};
ghost use Rattle.std.specs.Option.{option_map_or};

use crate::cap::Cap;
use crate::name::Name;
use crate::parsed_row::ParsedRow;
use crate::parser_items::{in_config, standard, whole_of};
use crate::preamble::Start;
use crate::recorder::Recorder;
use crate::recording::Recording;
use crate::recording_fault::RecordingFault;
use crate::recording_parser::RecordingParser;
use crate::request::Request;
use crate::request_error::RequestError;
use crate::span::Span;
use record_text::ConfigRow;
use std::alloc::Global;

impl RecordingParser {
    #[tactic(auto, unfolding(crate::specs::Sound::IsSound))]
    fn add_unit(self, number: u32, unit: Span) -> Result<RecordingParser, RecordingFault>
        requires { 1 ≤ unit.count }
        ensures value { result ≡ add_unit number self unit }
        ensures sound { IfOk result (λ s. IsSound s) }
    {
        match self {
            RecordingParser::First(completions) => Ok(RecordingParser::Timed(completions, unit)),
            _ => Err(RecordingFault::BadRecord(number)),
        }
    }

    #[tactic(auto, unfolding(crate::specs::Sound::IsSound))]
    fn add_rounds(
        self,
        alloc: Global,
        number: u32,
        rounds: u32,
    ) -> Result<RecordingParser, RecordingFault>
        requires sound { IsSound self }
        requires some { 1 ≤ rounds }
        requires most { rounds ≤ MAX_RECORDED_ROUNDS }
        ensures value { result ≢ Err RecordingFault.OutOfMemory → result ≡ add_rounds number self rounds }
        ensures sound { IfOk result (λ s. IsSound s) }
    {
        match self {
            RecordingParser::First(completions) => {
                standard(alloc, start_of(completions, None, rounds))
            }
            RecordingParser::Timed(completions, unit) => {
                standard(alloc, start_of(completions, Some(unit), rounds))
            }
            _ => Err(RecordingFault::BadRecord(number)),
        }
    }

    // One row of the configuration more, or the rule that it breaks.
    #[tactic(auto, unfolding(crate::specs::Sound::IsSound))]
    fn add_row(
        self,
        alloc: Global,
        number: u32,
        row: ConfigRow,
    ) -> Result<RecordingParser, RecordingFault>
        requires sound { IsSound self }
        requires place { MayTake self row }
        ensures value { result ≢ Err RecordingFault.OutOfMemory → result ≡ add_row number self row }
        ensures sound { IfOk result (λ s. IsSound s) }
    {
        match self {
            RecordingParser::Config(start, parser) => {
                let parser = in_config(number, parser.with_row(alloc, row))?;
                Ok(RecordingParser::Config(start, parser))
            }
            _ => Err(RecordingFault::BadRecord(number)),
        }
    }

    /// The recorder where a configuration is whole, or what is lacking of one.
    #[tactic(auto, unfolding(crate::specs::Sound::IsSound))]
    fn recorder(self, alloc: Global, number: u32) -> Result<Recorder, RecordingFault>
        requires sound { IsSound self }
        ensures value { result ≡ whole number self }
        ensures kept { IfOk result IsKept }
    {
        match self {
            RecordingParser::Book(recorder) => Ok(recorder),
            RecordingParser::Config(start, parser) => whole_of(alloc, number, start, parser),
            _ => Err(RecordingFault::BadRecord(number)),
        }
    }

    /// Applies a parsed row, or answers why it can't be applied.
    #[tactic(auto, unfolding(crate::specs::Reading::apply_parsed))]
    pub(crate) fn apply_parsed(
        self,
        alloc: Global,
        number: u32,
        parsed: ParsedRow,
    ) -> Result<RecordingParser, RecordingFault>
        requires sound { IsSound self }
        requires at { IsAt self (word_for parsed) }
        requires fits { FitsParsed (recorded_of self) parsed }
        ensures value { result ≢ Err RecordingFault.OutOfMemory → result ≡ apply_parsed number self parsed }
        ensures sound { IfOk result (λ s. IsSound s) }
    {
        match parsed {
            ParsedRow::Unit(unit) => self.add_unit(number, unit),
            ParsedRow::Rounds(rounds) => self.add_rounds(alloc, number, rounds),
            ParsedRow::Weight(row) => self.add_row(alloc, number, ConfigRow::Weight(row)),
            ParsedRow::Link(openings) => self.add_row(alloc, number, ConfigRow::Link(openings)),
            ParsedRow::Sim(adapter) => self.add_row(alloc, number, ConfigRow::Sim(adapter)),
            ParsedRow::Dev(device) => self.add_row(alloc, number, ConfigRow::Dev(device)),
            ParsedRow::Name(name) => with_name(self.recorder(alloc, number)?, name),
            ParsedRow::Cap(cap) => with_cap(self.recorder(alloc, number)?, cap),
            ParsedRow::Request(request) => with_request(
                alloc,
                self.recorder(alloc, number)?,
                number,
                request,
            ),
        }
    }

    /// The same with a whole configuration, where an adapter has come.
    #[tactic(auto, unfolding(crate::specs::Sound::IsSound))]
    pub(crate) fn booked(self, alloc: Global) -> RecordingParser
        requires { IsSound self }
        ensures value { result ≡ booked self }
        ensures sound { IsSound result }
    {
        match self {
            RecordingParser::Config(start, parser) => {
                if parser.lacks_adapters() {
                    return RecordingParser::Config(start, parser);
                }
                match whole_of(alloc, 0, start, parser) {
                    Ok(recorder) => RecordingParser::Book(recorder),
                    Err(_) => unreachable!(),
                }
            }
            parser => parser,
        }
    }

    /// The recording, where the records end here.
    #[tactic(auto, unfolding(crate::specs::Reading::ended, crate::specs::Sound::IsSound))]
    pub(crate) fn finish(self, alloc: Global) -> Result<Recording, RecordingFault>
        requires { IsSound self }
        ensures value { result ≡ ended self }
        ensures kept { IfOk result IsKept }
    {
        match self {
            RecordingParser::Header => Err(RecordingFault::BadHeader),
            RecordingParser::First(_) => Err(RecordingFault::BadRecord(2)),
            RecordingParser::Timed(..) => Err(RecordingFault::BadRecord(3)),
            RecordingParser::Config(start, parser) => {
                let unit = if start.unit.is_some() { 1 } else { 0 };
                let number = 3 + unit + parser.rows_before();
                match whole_of(alloc, number, start, parser) {
                    Ok(recorder) => Ok(recorder.finish()),
                    Err(fault) => Err(fault),
                }
            }
            RecordingParser::Book(recorder) => Ok(recorder.finish()),
        }
    }
}

fn start_of(completions: bool, unit: Option<Span>, rounds: u32) -> Start
    ensures { result ≡ record { completions = completions; unit = unit; rounds = rounds } }
{
    Start {
        completions,
        unit,
        rounds,
    }
}

fn with_name(mut recorder: Recorder, name: Name) -> Result<RecordingParser, RecordingFault>
    requires kept { IsKept recorder }
    requires next { is_name (counts_of recorder.config) (recorder.names, name) ≡ true }
    ensures value { result ≢ Err RecordingFault.OutOfMemory → result ≡ Ok (RecordingParser.Book (record recorder { names = recorder.names ++ name ∷ [] })) }
    ensures sound { IfOk result (λ s. IsSound s) }
{
    match recorder.add_name(name) {
        Ok(()) => Ok(RecordingParser::Book(recorder)),
        Err(_) => Err(RecordingFault::OutOfMemory),
    }
}

fn with_cap(mut recorder: Recorder, cap: Cap) -> Result<RecordingParser, RecordingFault>
    requires kept { IsKept recorder }
    requires next { is_cap recorder.rounds (counts_of recorder.config) (recorder.caps, cap) ≡ true }
    requires first { recorder.requests ≡ [] }
    ensures value { result ≢ Err RecordingFault.OutOfMemory → result ≡ Ok (RecordingParser.Book (record recorder { caps = recorder.caps ++ cap ∷ [] })) }
    ensures sound { IfOk result (λ s. IsSound s) }
{
    match recorder.add_cap(cap) {
        Ok(()) => Ok(RecordingParser::Book(recorder)),
        Err(_) => Err(RecordingFault::OutOfMemory),
    }
}

fn with_request(
    alloc: Global,
    mut recorder: Recorder,
    number: u32,
    request: Request,
) -> Result<RecordingParser, RecordingFault>
    requires kept { IsKept recorder }
    requires few { length recorder.requests < MAX_REQUESTS }
    requires done { is_done_right recorder.completions request ≡ true }
    ensures value { result ≢ Err RecordingFault.OutOfMemory → result ≡ unless_illegal number (request_cause recorder.rounds recorder.config recorder.caps (recorder.requests, request)) (RecordingParser.Book (record recorder { requests = recorder.requests ++ request ∷ [] })) }
    ensures sound { IfOk result (λ s. IsSound s) }
{
    match recorder.add_request(alloc, request) {
        Ok(()) => Ok(RecordingParser::Book(recorder)),
        Err(RequestError::Illegal(cause)) => Err(RecordingFault::Illegal(number, cause)),
        Err(RequestError::OutOfMemory) => Err(RecordingFault::OutOfMemory),
    }
}
