//! The parser of a script, record by record.

ghost use Rattle.std.specs.Prelude.{◌≡◌, ◌≢◌, ◌≤◌, Err, IfOk, IfSome, IsTrue, length};
ghost use Rattle.csv.specs.Records.{fields_of};
ghost use Rattle.record_text.specs.Fields.{field_of};
ghost use Rattle.trace_file.specs.Scenarios.{is_answer_row, is_answer_word, item_of, names_driver, MAX_ROWS};
ghost use Rattle.trace_file.specs.ScriptVersions.{ScriptVersion};
ghost use Rattle.trace_file.specs.ScriptReading.{config_step, configured, first_row, rows_before, has_room, first_number, first_parser, is_config_word, is_configuring, is_limits, item_word, limits_of, limits_step, roomy_word, rows_step, script_ended, script_step, with_item};
ghost use Rattle.trace_file.specs.Sound.{IsSound, IsSoundScript};

use crate::parser_items;
use crate::script::Script;
use crate::script_item::item_of;
use crate::script_row::{ScriptItem, ScriptRow};
use crate::script_rows::{limits_at, script_row_at};
use crate::script_version::ScriptVersion;
use crate::script_word::ScriptWord;
use crate::trace_fault::TraceFault;
use crate::trace_parser::{TraceParser, in_record};
use cam_types::{Config, Limits};
use csv::ByteRecord;
use record_text::{Parser, field, is_header, is_text};
use std::alloc::Global;

/// The most rows of drivers, and the most answers, of a script.
pub const MAX_ROWS: u32 = 4096;

/// What was parsed of a script so far.
#[derive(Drop)]
pub(crate) enum ScriptParser {
    /// Nothing: the header is due.
    Header,
    /// The header of this version: the limits or the configuration are due.
    First(ScriptVersion),
    /// The limits, if they were given, and a configuration in the making.
    Config(Option<Limits>, TraceParser),
    /// A whole configuration, that many rows of drivers, and that many answers.
    Rows(Script, u32, u32),
}

impl ScriptParser {
    /// The script, where the records end here.
    #[tactic(auto, unfolding(crate::specs::ScriptReading::script_ended, crate::specs::Sound::IsSoundScript))]
    pub(crate) fn finish(self, alloc: Global) -> Result<Script, TraceFault>
        requires { IsSoundScript self }
        ensures { result ≢ Err TraceFault.OutOfMemory → result ≡ script_ended self }
    {
        match self {
            ScriptParser::Header => Err(TraceFault::BadHeader),
            ScriptParser::First(version) => {
                without_rows(alloc, None, version.first_parser(alloc)?)
            }
            ScriptParser::Config(given, parser) => without_rows(alloc, given, parser),
            ScriptParser::Rows(script, _, _) => Ok(script),
        }
    }
}

impl Parser for ScriptParser {
    type Fault = TraceFault;

    ghost use Rattle.trace_file.specs.declared.trace_fault.TraceFault.{TraceFault};
    ghost use Rattle.trace_file.specs.ScriptReading.{script_step};
    ghost use Rattle.trace_file.specs.Sound.{IsSoundScript};

    ghost step = { script_step };

    ghost is_sound = { IsSoundScript };

    ghost refused = { TraceFault.OutOfMemory };

    fn out_of_memory() -> TraceFault {
        TraceFault::OutOfMemory
    }

    #[tactic(auto, unfolding(crate::specs::ScriptReading::script_step, crate::specs::Sound::IsSoundScript, crate::specs::Sound::IsSound))]
    fn take(
        self,
        alloc: Global,
        number: u32,
        row: &ByteRecord,
    ) -> Result<ScriptParser, TraceFault> {
        match self {
            ScriptParser::Header => {
                if is_header(ScriptVersion::One.name(), row) {
                    Ok(ScriptParser::First(ScriptVersion::One))
                } else if is_header(ScriptVersion::Two.name(), row) {
                    Ok(ScriptParser::First(ScriptVersion::Two))
                } else {
                    Err(TraceFault::BadHeader)
                }
            }
            ScriptParser::First(version) => {
                let parser = version.first_parser(alloc)?;
                if is_limits(row) {
                    take_limits(number, parser, row)
                } else {
                    take_config(alloc, number, None, parser, row)
                }
            }
            ScriptParser::Config(given, parser) => take_config(alloc, number, given, parser, row),
            ScriptParser::Rows(script, steps, answers) => {
                take_item(number, script, steps, answers, row)
            }
        }
    }
}

// The script of a configuration without a row, where the records end here.
#[tactic(auto, unfolding(crate::specs::ScriptReading::script_ended))]
fn without_rows(
    alloc: Global,
    given: Option<Limits>,
    parser: TraceParser,
) -> Result<Script, TraceFault>
    requires sound { IsSound parser }
    requires configuring { IsTrue (is_configuring parser) }
    ensures { result ≢ Err TraceFault.OutOfMemory → result ≡ script_ended (ScriptParser.Config given parser) }
{
    let number = first_number(&given) + rows_before(&parser);
    let config = configured(number, parser)?;
    match Script::empty(alloc, config, limits_of(given)) {
        Ok(script) => Ok(script),
        Err(_) => Err(TraceFault::OutOfMemory),
    }
}

// The configuration, or what it lacks.
#[tactic(auto, unfolding(crate::specs::Sound::IsSound))]
fn configured(number: u32, parser: TraceParser) -> Result<Config, TraceFault>
    requires sound { IsSound parser }
    requires configuring { IsTrue (is_configuring parser) }
    ensures { result ≡ configured number parser }
{
    match parser {
        TraceParser::Config(_, parser) => parser_items::configured(number, parser),
        TraceParser::Header | TraceParser::Events(_) => unreachable!(),
    }
}

// How many rows of weights and links came: at most 20.
fn rows_before(parser: &TraceParser) -> u32
    ensures value { result ≡ rows_before parser.now }
    ensures few { result ≤ 20 }
{
    match parser {
        TraceParser::Config(_, parser) => parser.rows_before(),
        TraceParser::Header | TraceParser::Events(_) => 0,
    }
}

// The number of the record after the header and the limits, if they are given.
fn first_number(given: &Option<Limits>) -> u32
    ensures value { result ≡ first_number given.now }
    ensures small { result ≤ 3 }
{
    match given {
        None => 2,
        Some(_) => 3,
    }
}

// The limits that are given, or the largest.
fn limits_of(given: Option<Limits>) -> Limits
    ensures { result ≡ limits_of given }
{
    match given {
        None => Limits::most(),
        Some(limits) => limits,
    }
}

#[tactic(auto, unfolding(crate::specs::ScriptReading::limits_step, crate::specs::Sound::IsSoundScript, crate::specs::Sound::IsSound))]
fn take_limits(
    number: u32,
    parser: TraceParser,
    row: &ByteRecord,
) -> Result<ScriptParser, TraceFault>
    requires eight { length (fields_of row.now) ≡ 8 }
    requires sound { IsSound parser }
    requires configuring { IsTrue (is_configuring parser) }
    ensures value { (v : ScriptVersion) → parser ≡ first_parser v → result ≡ limits_step number v (fields_of row.now) }
    ensures sound { IfOk result (λ s. IsSoundScript s) }
{
    let limits = in_record(number, limits_at(row))?;
    Ok(ScriptParser::Config(Some(limits), parser))
}

#[tactic(auto, unfolding(crate::specs::ScriptReading::config_step, crate::specs::Sound::IsSoundScript))]
fn take_config(
    alloc: Global,
    number: u32,
    given: Option<Limits>,
    parser: TraceParser,
    row: &ByteRecord,
) -> Result<ScriptParser, TraceFault>
    requires sound { IsSound parser }
    requires configuring { IsTrue (is_configuring parser) }
    ensures value { result ≢ Err TraceFault.OutOfMemory → result ≡ config_step number given parser (fields_of row.now) }
    ensures sound { IfOk result (λ s. IsSoundScript s) }
{
    if !is_config_word(field(row, 0)) {
        return take_first(alloc, number, given, parser, row);
    }
    let parser = parser.take_row(alloc, number, row)?;
    Ok(ScriptParser::Config(given, parser))
}

#[tactic(auto, unfolding(crate::specs::ScriptReading::first_row, crate::specs::Sound::IsSoundScript))]
fn take_first(
    alloc: Global,
    number: u32,
    given: Option<Limits>,
    parser: TraceParser,
    row: &ByteRecord,
) -> Result<ScriptParser, TraceFault>
    requires sound { IsSound parser }
    requires configuring { IsTrue (is_configuring parser) }
    ensures value { result ≢ Err TraceFault.OutOfMemory → result ≡ first_row number given parser (fields_of row.now) }
    ensures sound { IfOk result (λ s. IsSoundScript s) }
{
    let Some(word) = item_word(row) else {
        return Err(TraceFault::BadRecord(number));
    };
    let parsed = in_record(number, script_row_at(word, row))?;
    let config = configured(number, parser)?;
    match Script::empty(alloc, config, limits_of(given)) {
        Ok(script) => with_row(number, script, 0, 0, parsed),
        Err(_) => Err(TraceFault::OutOfMemory),
    }
}

#[tactic(auto, unfolding(crate::specs::ScriptReading::rows_step))]
fn take_item(
    number: u32,
    script: Script,
    steps: u32,
    answers: u32,
    row: &ByteRecord,
) -> Result<ScriptParser, TraceFault>
    requires { IsSoundScript (ScriptParser.Rows script steps answers) }
    ensures value { result ≢ Err TraceFault.OutOfMemory → result ≡ rows_step number script steps answers (fields_of row.now) }
    ensures sound { IfOk result (λ s. IsSoundScript s) }
{
    let Some(word) = roomy_word(row, steps, answers) else {
        return Err(TraceFault::BadRecord(number));
    };
    let parsed = in_record(number, script_row_at(word, row))?;
    with_row(number, script, steps, answers, parsed)
}

#[tactic(auto, unfolding(crate::specs::Sound::IsSoundScript))]
fn with_row(
    number: u32,
    script: Script,
    steps: u32,
    answers: u32,
    parsed: ScriptRow,
) -> Result<ScriptParser, TraceFault>
    requires driver { IsTrue (names_driver parsed) }
    requires counted { IsSoundScript (ScriptParser.Rows script steps answers) }
    requires room { IsTrue (has_room (is_answer_row parsed) steps answers) }
    ensures value { result ≢ Err TraceFault.OutOfMemory → result ≡ with_item number script steps answers (item_of script.config parsed) }
    ensures sound { IfOk result (λ s. IsSoundScript s) }
{
    match item_of(script.config(), parsed) {
        Err(refusal) => Err(TraceFault::Illegal(number, refusal)),
        Ok(ScriptItem::Step(driver, step)) => match script.with_step(driver, step) {
            Ok(script) => Ok(ScriptParser::Rows(script, steps + 1, answers)),
            Err(_) => Err(TraceFault::OutOfMemory),
        },
        Ok(ScriptItem::Answer(lane, outcome)) => match script.with_answer(lane, outcome) {
            Ok(script) => Ok(ScriptParser::Rows(script, steps, answers + 1)),
            Err(_) => Err(TraceFault::OutOfMemory),
        },
    }
}

#[tactic(auto, unfolding(crate::specs::ScriptReading::is_limits))]
fn is_limits(row: &ByteRecord) -> bool
    ensures value { result ≡ is_limits (fields_of row.now) }
    ensures eight { IsTrue result → length (fields_of row.now) ≡ 8 }
{
    row.len() == 8 && is_text(field(row, 0), b"limits")
}

#[tactic(auto, unfolding(crate::specs::ScriptReading::is_config_word))]
fn is_config_word(field: &[u8]) -> bool
    ensures { result ≡ is_config_word field.now }
{
    is_text(field, b"weight")
        || is_text(field, b"link")
        || is_text(field, b"sim")
        || is_text(field, b"dev")
        || is_text(field, b"lane")
}

#[tactic(auto, unfolding(crate::specs::ScriptReading::item_word))]
fn item_word(row: &ByteRecord) -> Option<ScriptWord>
    ensures value { result ≡ item_word (fields_of row.now) }
    ensures eight { IfSome result (λ w. length (fields_of row.now) ≡ 8) }
{
    if row.len() != 8 {
        return None;
    }
    ScriptWord::of(field(row, 0))
}

#[tactic(auto, unfolding(crate::specs::ScriptReading::roomy_word))]
fn roomy_word(row: &ByteRecord, steps: u32, answers: u32) -> Option<ScriptWord>
    ensures value { result ≡ roomy_word steps answers (fields_of row.now) }
    ensures eight { IfSome result (λ w. length (fields_of row.now) ≡ 8) }
    ensures room { IfSome result (λ w. IsTrue (has_room (is_answer_word w) steps answers)) }
{
    let word = item_word(row)?;
    let room = if word.is_answer() {
        answers < MAX_ROWS
    } else {
        steps < MAX_ROWS
    };
    if room { Some(word) } else { None }
}
