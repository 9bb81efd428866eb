//! The number of an event's record in a trace.

ghost use Rattle.std.specs.Prelude.{◌≡◌, ◌≤◌, ⊤, length, None, IfSome, IfOk};
ghost use Rattle.cam_types.specs.declared.limits.TheConstants.{MAX_BYTES};
ghost use Rattle.trace_file.specs.EventRecord.{IsEventRecord};
ghost use Rattle.record_text.specs.Text.{records_in};
ghost use Rattle.trace_file.specs.Trace.{IsTrace};

use crate::trace_fault::TraceFault;
use cam_event::History;
use csv::ByteRecord;
use record_text::{Parser, take_records};
use std::alloc::{AllocError, Global};

/// The number of the record of the event at this place, from 0 on, in a trace of the history, whichever its version. There is
/// none exactly if the history has no such event.
///
/// # Errors
///
/// `AllocError` if no memory is left.
pub fn event_record(
    alloc: Global,
    text: &[u8],
    history: &History,
    place: u32,
) -> Result<Option<u32>, AllocError>
    requires { IsTrace text.now history.now }
    ensures number { IfOk result (λ found. IfSome found (λ n. IsEventRecord text.now history.now place n)) }
    ensures none { IfOk result (λ found. found ≡ None → length history.now.events ≤ place) }
{
    let events = history.events().len() as u32;
    if place >= events {
        return Ok(None);
    }
    let others = record_count(alloc, text)? - events;
    Ok(Some(others + place + 1))
}

fn record_count(alloc: Global, text: &[u8]) -> Result<u32, AllocError>
    requires { length text.now ≤ MAX_BYTES }
    ensures { IfOk result (λ n. n ≡ length (records_in text.now)) }
{
    match take_records(alloc, text, RecordCount { records: 0 }) {
        Ok(counted) => Ok(counted.records),
        Err(_) => Err(AllocError),
    }
}

/// How many records a text has so far.
#[derive(Clone, Copy)]
pub(crate) struct RecordCount {
    pub(crate) records: u32,
}

impl Parser for RecordCount {
    type Fault = TraceFault;

    ghost use Rattle.trace_file.specs.declared.trace_fault.TraceFault.{TraceFault};
    ghost use Rattle.trace_file.specs.EventRecord.{counted};

    ghost step = { counted };

    ghost is_sound = { λ _. ⊤ };

    ghost refused = { TraceFault.OutOfMemory };

    fn out_of_memory() -> TraceFault {
        TraceFault::OutOfMemory
    }

    fn take(
        self,
        _alloc: Global,
        number: u32,
        _row: &ByteRecord,
    ) -> Result<RecordCount, TraceFault> {
        Ok(RecordCount { records: number })
    }
}
