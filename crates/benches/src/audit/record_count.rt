//! Reads the records of a text as a trace's are read: what the reading of a trace costs alone.

use crate::audit::refused;
use csv::ReaderBuilder;
use std::alloc::Global;
use std::io;
use std::process::ExitCode;

/// Prints how many records the text has.
pub fn count_records<R: AllocGlobal + Print + Eprint>(rt: &R, text: &[u8]) -> io::Result<ExitCode> {
    let Some(records) = record_count(rt.alloc(), text) else {
        return refused(rt, "no memory");
    };
    println!(rt; "records {records}")?;
    Ok(ExitCode::SUCCESS)
}

fn record_count(alloc: Global, text: &[u8]) -> Option<u64> {
    let reader = ReaderBuilder::new()
        .has_headers(false)
        .flexible(true)
        .from_reader(alloc, text);
    let mut count = 0u64;
    for row in reader.into_byte_records() {
        let _row = row.ok()?;
        count = count.saturating_add(1);
    }
    Some(count)
}
