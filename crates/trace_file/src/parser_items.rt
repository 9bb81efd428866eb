//! What a record adds to a history, and the configuration before its first event.

ghost use Rattle.std.specs.Prelude.{◌≡◌, ◌≢◌, length, [], ◌∷◌, ◌++◌, Ok, Err, IfOk};
ghost use Rattle.cam_types.specs.Topology.{IsConfig};
ghost use Rattle.record_text.specs.ConfigParsing.{IsOrdered};
ghost use Rattle.record_text.specs.Steps.{◌>>=◌ as and_then};
ghost use Rattle.trace_file.specs.Histories.{refusal};
ghost use Rattle.trace_file.specs.Reading.{configured, unless_refused};
ghost use Rattle.trace_file.specs.Sound.{IsKept, IsSound};

use crate::trace_fault::TraceFault;
use crate::trace_parser::TraceParser;
use cam_event::{History, PushFault};
use cam_types::Config;
use event_rules::Event;
use record_text::ConfigParser;
use std::alloc::Global;

/// One event more, or why it is refused.
pub(crate) fn with_event(
    mut history: History,
    number: u32,
    event: Event,
) -> Result<TraceParser, TraceFault>
    requires kept { IsKept history }
    ensures value { result ≢ Err TraceFault.OutOfMemory → result ≡ unless_refused number (refusal history.config history.events event) (TraceParser.Events (record history { events = history.events ++ event ∷ [] })) }
    ensures sound { IfOk result (λ s. IsSound s) }
{
    match history.push(event) {
        Ok(()) => Ok(TraceParser::Events(history)),
        Err(PushFault::Refused(refusal)) => Err(TraceFault::Illegal(number, refusal)),
        Err(PushFault::OutOfMemory) => Err(TraceFault::OutOfMemory),
    }
}

/// The history of a configuration in which nothing has happened, or what the configuration lacks.
pub(crate) fn without_events(
    alloc: Global,
    number: u32,
    parser: ConfigParser,
) -> Result<History, TraceFault>
    requires { IsOrdered parser }
    ensures value { result ≢ Err TraceFault.OutOfMemory → result ≡ and_then (configured number parser) (λ t. Ok (record { config = t; events = [] })) }
    ensures kept { IfOk result IsKept }
{
    match History::new(alloc, configured(number, parser)?) {
        Ok(history) => Ok(history),
        Err(_) => Err(TraceFault::OutOfMemory),
    }
}

/// The configuration, or what it lacks.
pub(crate) fn configured(number: u32, parser: ConfigParser) -> Result<Config, TraceFault>
    requires { IsOrdered parser }
    ensures value { result ≡ configured number parser }
    ensures kept { IfOk result IsConfig }
{
    match parser.finish() {
        Ok(config) => Ok(config),
        Err(fault) => Err(TraceFault::BadConfig(number, fault)),
    }
}
