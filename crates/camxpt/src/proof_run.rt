//! Says whether a report on a trace is proved.

use crate::failure::Failure;
use crate::output::{Output, closed, print};
use crate::source::Source;
use audit_report::run_prove;
use cam_types::Watched;
use std::alloc::Global;
use std::io::{Read, Write};
use views::prove_json;

// More bytes than the line has that says what comes of a report.
const MAX_FINDING: usize = 256;

/// Prints whether the report's prices prove its schedule, as one line of JSON if that is asked for, and answers it.
pub fn prove<D: Read, W: Write>(
    alloc: Global,
    trace: &mut Source<'_, D>,
    report: &mut Source<'_, D>,
    out: &mut Output<W>,
    as_json: bool,
) -> Result<bool, Failure> {
    if !as_json {
        return find(alloc, &mut *trace, &mut *report, &mut *out);
    }
    let (trace_name, report_name) = (trace.name, report.name);
    let mut finding = Vec::with_capacity(alloc, MAX_FINDING)?;
    let is_proved = find(alloc, &mut *trace, &mut *report, &mut finding)?;
    let finding = str::from_utf8(&finding).unwrap_or("").trim_end();
    let line = closed(prove_json(alloc, trace_name, report_name, finding))?;
    print(out, &line)?;
    Ok(is_proved)
}

// Writes the line that says what comes of the report.
fn find<D: Read, W: Write + Drop>(
    alloc: Global,
    trace: &mut Source<'_, D>,
    report: &mut Source<'_, D>,
    out: W,
) -> Result<bool, Failure> {
    let mut trace = Watched::new(&mut *trace);
    let mut report = Watched::new(&mut *report);
    Ok(run_prove(alloc, &mut trace, &mut report, &mut Watched::new(out))?)
}
