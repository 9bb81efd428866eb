//! What helps to find why a capture isn't imported.

use crate::import_fault::ImportFault;
use crate::note::{STANDARD_OUTPUT, reason_note, title};
use crate::words::word_at;
use capture_file::ReadFault;
use clap::ArgMatches;
use std::alloc::{AllocError, Global};
use views::shown_name;

// How many bytes of a line are shown.
const MAX_SHOWN: usize = 200;

/// A line with the system's reason why a file can't be opened or read or why a write failed, or with the line of the capture that is
/// refused. None for other faults, and where there is no memory for it.
pub fn note_on(
    alloc: Global,
    words: &ArgMatches<'_>,
    fault: &ImportFault,
    line: &[u8],
) -> Option<String> {
    match fault {
        ImportFault::CannotOpen(place, error)
        | ImportFault::File(place, ReadFault::ReadFailed(error)) => {
            reason_note(alloc, word_at(words, "FILE", *place), *error)
        }
        ImportFault::WriteFailed(Some(error)) => reason_note(alloc, STANDARD_OUTPUT, *error),
        ImportFault::File(place, ReadFault::Line(number, _)) => {
            line_note(alloc, word_at(words, "FILE", *place), *number, line).ok()
        }
        _ => None,
    }
}

/// The name of a file, a line's number, and at most 200 bytes of the line, whose control characters are escaped.
pub fn line_note(
    alloc: Global,
    name: &str,
    number: u64,
    line: &[u8],
) -> Result<String, AllocError> {
    let shown = shown_name(alloc, title(name))?;
    let front = line.get(..MAX_SHOWN).unwrap_or(line);
    let text = String::from_utf8_lossy(alloc, front)?;
    let text = shown_name(alloc, &text)?;
    format!(in alloc; "  {shown}, line {number}: {text}\n")
}
