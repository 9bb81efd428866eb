//! The parser of a trace, record by record.

ghost use Rattle.std.specs.Prelude.{◌≡◌, ◌≢◌, length, true, Ok, Err, IfOk, IfSome};
ghost use Rattle.csv.specs.Records.{fields_of};
ghost use Rattle.record_text.specs.ConfigParsing.{IsOrdered};
ghost use Rattle.trace_file.specs.Reading.{in_record, in_config, first_config};
ghost use Rattle.trace_file.specs.Sound.{IsKept};

use crate::parser_items::{with_event, without_events};
use crate::rows::{adapter_in, event_at};
use crate::trace_fault::TraceFault;
use crate::version::Version;
use crate::word::TraceWord;
use cam_event::History;
use cam_types::ConfigError;
use csv::ByteRecord;
use event_rules::Event;
use record_text::{
    ConfigParser, ConfigRow, Parser, device_at, field, is_header, one_number, weight_at,
};
use std::alloc::Global;

/// What was parsed of a trace so far.
#[derive(Drop)]
pub(crate) enum TraceParser {
    /// Nothing: the header is due.
    Header,
    /// The header of this version, and rows of a configuration.
    Config(Version, ConfigParser),
    /// A whole configuration, and events.
    Events(History),
}

impl TraceParser {
    ghost use Rattle.trace_file.specs.Reading.{stands, placed, version_of, add_row, add_event, take_word, row_step, ended};
    ghost use Rattle.trace_file.specs.Sound.{IsSound, MayTake};

    /// Whether a record of this word may come next.
    #[tactic(auto, unfolding(crate::specs::Reading::stands))]
    fn stands(&self, word: TraceWord) -> bool
        ensures { result ≡ stands self.now word }
    {
        match self {
            TraceParser::Header => false,
            TraceParser::Config(version, parser) => {
                parser.next_rank() <= word.rank() && version.has_word(word)
            }
            TraceParser::Events(_) => 5 <= word.rank(),
        }
    }

    // The version whose records of adapters are due.
    fn version(&self) -> Version
        ensures { result ≡ version_of self.now }
    {
        match self {
            TraceParser::Config(version, _) => *version,
            TraceParser::Header | TraceParser::Events(_) => Version::One,
        }
    }

    /// The word of a record of eight fields that stands in its place.
    #[tactic(auto, unfolding(crate::specs::Reading::placed))]
    fn placed(&self, row: &ByteRecord) -> Option<TraceWord>
        ensures value { result ≡ placed self.now (fields_of row.now) }
        ensures eight { IfSome result (λ w. length (fields_of row.now) ≡ 8) }
        ensures place { IfSome result (λ w. stands self.now w ≡ true) }
    {
        if row.len() != 8 {
            return None;
        }
        let word = TraceWord::of(field(row, 0))?;
        if self.stands(word) { Some(word) } else { None }
    }

    /// One row of the configuration more, or the rule that it breaks.
    #[tactic(auto, unfolding(crate::specs::Sound::IsSound))]
    fn add_row(self, alloc: Global, number: u32, row: ConfigRow) -> Result<TraceParser, TraceFault>
        requires sound { IsSound self }
        requires place { MayTake self row }
        ensures value { result ≢ Err TraceFault.OutOfMemory → result ≡ add_row number self row }
        ensures sound { IfOk result (λ s. IsSound s) }
    {
        match self {
            TraceParser::Config(version, parser) => {
                let parser = in_config(number, parser.with_row(alloc, row))?;
                Ok(TraceParser::Config(version, parser))
            }
            TraceParser::Header | TraceParser::Events(_) => Err(TraceFault::BadRecord(number)),
        }
    }

    /// One event more, or why it is refused.
    #[tactic(auto, unfolding(crate::specs::Sound::IsSound))]
    fn add_event(self, alloc: Global, number: u32, event: Event) -> Result<TraceParser, TraceFault>
        requires sound { IsSound self }
        ensures value { result ≢ Err TraceFault.OutOfMemory → result ≡ add_event number self event }
        ensures sound { IfOk result (λ s. IsSound s) }
    {
        match self {
            TraceParser::Header => Err(TraceFault::BadRecord(number)),
            TraceParser::Config(_, parser) => {
                with_event(without_events(alloc, number, parser)?, number, event)
            }
            TraceParser::Events(history) => with_event(history, number, event),
        }
    }

    /// A record of a word that stands in its place, or its fault.
    #[tactic(auto, unfolding(crate::specs::Reading::take_word))]
    fn take_word(
        self,
        alloc: Global,
        number: u32,
        word: TraceWord,
        row: &ByteRecord,
    ) -> Result<TraceParser, TraceFault>
        requires sound { IsSound self }
        requires eight { length (fields_of row.now) ≡ 8 }
        requires place { stands self word ≡ true }
        ensures value { result ≢ Err TraceFault.OutOfMemory → result ≡ take_word number self word (fields_of row.now) }
        ensures sound { IfOk result (λ s. IsSound s) }
    {
        match word {
            TraceWord::Weight => {
                let weight = in_record(number, weight_at(row))?;
                self.add_row(alloc, number, ConfigRow::Weight(weight))
            }
            TraceWord::Link => {
                let openings = in_record(number, one_number(row))?;
                self.add_row(alloc, number, ConfigRow::Link(openings))
            }
            TraceWord::Sim => {
                let adapter = in_record(number, adapter_in(self.version(), row))?;
                self.add_row(alloc, number, ConfigRow::Sim(adapter))
            }
            TraceWord::Dev => {
                let device = in_record(number, device_at(row))?;
                self.add_row(alloc, number, ConfigRow::Dev(device))
            }
            TraceWord::Lane => {
                let adapter = in_record(number, one_number(row))?;
                self.add_row(alloc, number, ConfigRow::Lane(adapter))
            }
            _ => {
                let event = in_record(number, event_at(word, row))?;
                self.add_event(alloc, number, event)
            }
        }
    }

    /// A record after the header, or its fault.
    #[tactic(auto, unfolding(crate::specs::Reading::row_step))]
    pub(crate) fn take_row(
        self,
        alloc: Global,
        number: u32,
        row: &ByteRecord,
    ) -> Result<TraceParser, TraceFault>
        requires { IsSound self }
        ensures value { result ≢ Err TraceFault.OutOfMemory → result ≡ row_step number self (fields_of row.now) }
        ensures sound { IfOk result (λ s. IsSound s) }
    {
        match self.placed(row) {
            Some(word) => self.take_word(alloc, number, word, row),
            None => Err(TraceFault::BadRecord(number)),
        }
    }

    /// The history, where the records end here.
    #[tactic(auto, unfolding(crate::specs::Reading::ended, crate::specs::Sound::IsSound))]
    pub(crate) fn finish(self, alloc: Global) -> Result<History, TraceFault>
        requires { IsSound self }
        ensures value { result ≢ Err TraceFault.OutOfMemory → result ≡ ended self }
        ensures kept { IfOk result (λ h. IsKept h) }
    {
        match self {
            TraceParser::Header => Err(TraceFault::BadHeader),
            TraceParser::Config(_, parser) => {
                without_events(alloc, 2 + parser.rows_before(), parser)
            }
            TraceParser::Events(history) => Ok(history),
        }
    }
}

impl Parser for TraceParser {
    type Fault = TraceFault;

    ghost use Rattle.trace_file.specs.declared.trace_fault.TraceFault.{TraceFault};
    ghost use Rattle.trace_file.specs.Reading.{step};
    ghost use Rattle.trace_file.specs.Sound.{IsSound};

    ghost step = { step };

    ghost is_sound = { IsSound };

    ghost refused = { TraceFault.OutOfMemory };

    fn out_of_memory() -> TraceFault {
        TraceFault::OutOfMemory
    }

    #[tactic(auto, using(crate::proofs::ParserLemmas::step_behind), unfolding(crate::specs::Reading::step, crate::specs::Sound::IsSound))]
    fn take(self, alloc: Global, number: u32, row: &ByteRecord) -> Result<TraceParser, TraceFault> {
        match self {
            TraceParser::Header => {
                let version = if is_header(Version::One.name(), row) {
                    Version::One
                } else if is_header(Version::Two.name(), row) {
                    Version::Two
                } else if is_header(Version::Three.name(), row) {
                    Version::Three
                } else {
                    return Err(TraceFault::BadHeader);
                };
                Ok(TraceParser::Config(version, first_config(alloc, version)?))
            }
            parser => parser.take_row(alloc, number, row),
        }
    }
}

/// The configuration to which no row was applied, in a version.
pub(crate) fn first_config(alloc: Global, version: Version) -> Result<ConfigParser, TraceFault>
    ensures value { result ≢ Err TraceFault.OutOfMemory → result ≡ Ok (first_config version) }
    ensures ordered { IfOk result IsOrdered }
{
    if version.has_table() {
        return Ok(ConfigParser::new(alloc));
    }
    match ConfigParser::standard(alloc) {
        Ok(parser) => Ok(parser),
        Err(_) => Err(TraceFault::OutOfMemory),
    }
}

/// A field without its form is a fault of the record.
pub(crate) fn in_record<T>(number: u32, read: Result<T, u32>) -> Result<T, TraceFault>
    ensures { result ≡ in_record number read }
{
    match read {
        Ok(value) => Ok(value),
        Err(field) => Err(TraceFault::BadField(number, field)),
    }
}

// A rule of the configuration that is broken is a fault of the record.
fn in_config<T>(number: u32, made: Result<T, ConfigError>) -> Result<T, TraceFault>
    ensures { result ≡ in_config number made }
{
    match made {
        Ok(value) => Ok(value),
        Err(ConfigError::Fault(fault)) => Err(TraceFault::BadConfig(number, fault)),
        Err(ConfigError::OutOfMemory) => Err(TraceFault::OutOfMemory),
    }
}
