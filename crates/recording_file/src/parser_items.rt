//! The configuration of a recording: its first row, and its end.

ghost use Rattle.std.specs.Prelude.{◌≡◌, ◌≢◌, ◌≤◌, Ok, Err, IfOk};
ghost use Rattle.record_text.specs.ConfigParsing.{IsOrdered, standard_table};
ghost use Rattle.recording_file.specs.Reading.{in_config, whole_of};
ghost use Rattle.recording_file.specs.Recorded.{IsKept};
ghost use Rattle.recording_file.specs.Sound.{IsSound, IsStart};

use crate::preamble::Start;
use crate::recorder::Recorder;
use crate::recording_fault::RecordingFault;
use crate::recording_parser::RecordingParser;
use cam_types::ConfigError;
use record_text::ConfigParser;
use std::alloc::Global;

/// The standard weights, and nothing else yet.
pub(crate) fn standard(alloc: Global, start: Start) -> Result<RecordingParser, RecordingFault>
    requires { IsStart start }
    ensures value { result ≢ Err RecordingFault.OutOfMemory → result ≡ Ok (RecordingParser.Config start standard_table) }
    ensures sound { IfOk result (λ s. IsSound s) }
{
    match ConfigParser::standard(alloc) {
        Ok(parser) => Ok(RecordingParser::Config(start, parser)),
        Err(_) => Err(RecordingFault::OutOfMemory),
    }
}

/// A recorder of a whole configuration, or what the configuration lacks.
pub(crate) fn whole_of(
    alloc: Global,
    number: u32,
    start: Start,
    parser: ConfigParser,
) -> Result<Recorder, RecordingFault>
    requires start { IsStart start }
    requires ordered { IsOrdered parser }
    requires lanes { parser.rank ≤ 3 }
    ensures value { result ≡ whole_of number start parser }
    ensures kept { IfOk result IsKept }
{
    match parser.finish() {
        Ok(config) => Ok(Recorder::new(alloc, start.unit, start.rounds, config, start.completions)),
        Err(fault) => Err(RecordingFault::BadConfig(number, fault)),
    }
}

/// A rule of the configuration that is broken is a fault of the record.
pub(crate) fn in_config<T>(number: u32, made: Result<T, ConfigError>) -> Result<T, RecordingFault>
    ensures { result ≡ in_config number made }
{
    match made {
        Ok(value) => Ok(value),
        Err(ConfigError::Fault(fault)) => Err(RecordingFault::BadConfig(number, fault)),
        Err(ConfigError::OutOfMemory) => Err(RecordingFault::OutOfMemory),
    }
}
