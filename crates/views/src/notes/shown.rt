//! A line of a text as it is shown.

use std::alloc::{AllocError, Global};
use wording::shown_name;

// How many bytes of a line are shown.
const MAX_SHOWN: usize = 200;

/// Puts the name of a file, a line's number and the line's text after the note: at most 200 bytes, and a `?` for each that
/// isn't a printable character of ASCII.
pub(crate) fn push_line(
    alloc: Global,
    note: &mut String,
    name: &str,
    number: u64,
    line: &[u8],
) -> Result<(), AllocError> {
    let (name, shown) = (shown_name(alloc, name)?, printable(alloc, line)?);
    writeln!(note, "  {name}, line {number}: {shown}")
}

// The first bytes of a line, with a `?` for each that isn't a printable character of ASCII.
fn printable(alloc: Global, line: &[u8]) -> Result<String, AllocError> {
    let mut shown = String::new(alloc);
    for byte in line.iter().take(MAX_SHOWN) {
        let is_shown = *byte == b' ' || byte.is_ascii_graphic();
        shown.push(if is_shown { char::from(*byte) } else { '?' })?;
    }
    Ok(shown)
}

/// The text up to the first end of a line.
pub(crate) fn first_line(text: &[u8]) -> &[u8] {
    for (at, byte) in text.iter().enumerate() {
        if matches!(*byte, b'\n' | b'\r') {
            return text.get(..at).unwrap_or(text);
        }
    }
    text
}
