//! What helps to find the fault of a report.

use crate::notes::shown::push_line;
use report_text::ReportFault;
use std::alloc::{AllocError, Global};

/// The line that the fault names, with its text. The note is empty if the fault is none of a line, or the line isn't there.
pub fn report_note(
    alloc: Global,
    name: &str,
    text: &[u8],
    fault: &ReportFault,
) -> Result<String, AllocError> {
    let mut note = String::new(alloc);
    let Some(number) = line_of(fault) else {
        return Ok(note);
    };
    let before = number.saturating_sub(1) as usize;
    if let Some(line) = text.split(|byte| *byte == b'\n').nth(before) {
        push_line(alloc, &mut note, name, u64::from(number), line)?;
    }
    Ok(note)
}

// The number of the line that the fault names.
fn line_of(fault: &ReportFault) -> Option<u32> {
    match fault {
        ReportFault::BadLine(line)
        | ReportFault::PriceRange(line)
        | ReportFault::WrongStays(line) => Some(*line),
        ReportFault::TooLong | ReportFault::ReadFailed | ReportFault::OutOfMemory => None,
    }
}
