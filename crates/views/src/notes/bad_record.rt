//! Why a record of a trace, a recording or a script is a bad one.

use crate::notes::place::{record_at, records};
use csv::ByteRecord;
use recording_file::MAX_REQUESTS;
use std::alloc::{AllocError, Global};
use trace_file::MAX_ROWS;

// How many fields a record has.
const FIELDS: usize = 8;

// The words that headers of scripts begin with.
const SCRIPT_HEADERS: &[&str] = &["camscript1", "camscript2"];

// The words that records begin with.
const OF_TRACES: &[&str] = &[
    "weight", "link", "sim", "dev", "lane", "submit", "send", "done", "requeue", "finish",
    "freeze", "release", "sfreeze", "srelease", "adjust", "tick",
];

const OF_RECORDINGS: &[&str] = &[
    "unit", "rounds", "weight", "link", "sim", "dev", "name", "cap", "request",
];

const OF_SCRIPTS: &[&str] = &[
    "limits", "weight", "link", "sim", "dev", "lane", "submit", "freeze", "release", "sfreeze",
    "srelease", "adjust", "pause", "answer",
];

// Records of which a text of a kind has only so many: the words that they begin with, what they are called, and how many.
const LIMITS: [(&str, &[&str], &str, usize); 3] = [
    ("recording", &["request"], "requests", MAX_REQUESTS),
    (
        "script",
        &[
            "submit", "freeze", "release", "sfreeze", "srelease", "adjust", "pause",
        ],
        "records of drivers",
        MAX_ROWS as usize,
    ),
    ("script", &["answer"], "answers", MAX_ROWS as usize),
];

/// Puts a line after the note that says which rule the record of this number breaks: of its fields, its word, how many records
/// of its word there may be, or else its place.
pub(crate) fn push_reason(
    alloc: Global,
    note: &mut String,
    text: &[u8],
    record: u32,
    is_recording: bool,
) -> Result<(), AllocError> {
    let Some(row) = record_at(alloc, text, record) else {
        return Ok(());
    };
    let fields = row.len();
    if fields > FIELDS {
        return note.push_str("  it has more than 8 fields\n");
    }
    if fields < FIELDS {
        return writeln!(note, "  it has {fields} fields, and not 8");
    }
    let (kind, words) = if is_script(alloc, text) {
        ("script", OF_SCRIPTS)
    } else if is_recording {
        ("recording", OF_RECORDINGS)
    } else {
        ("trace", OF_TRACES)
    };
    if let Some((most, name)) = passed_limit(alloc, text, record, kind, &row) {
        return writeln!(note, "  there are {most} {name} before it, the most");
    }
    if begins_with(&row, words) {
        note.push_str("  no record of this word can stand here\n")
    } else {
        writeln!(note, "  no record of a {kind} begins with this word")
    }
}

// How many records like this one a text of this kind has at most, and what they are called, if there are more up to it.
fn passed_limit(
    alloc: Global,
    text: &[u8],
    record: u32,
    kind: &str,
    row: &ByteRecord,
) -> Option<(usize, &'static str)> {
    for (of, limited, name, most) in &LIMITS {
        if *of == kind && begins_with(row, limited) && count(alloc, text, record, limited) > *most {
            return Some((*most, *name));
        }
    }
    None
}

// Whether the header is that of a script. A byte-order mark and empty lines before it are no part of it.
fn is_script(alloc: Global, text: &[u8]) -> bool {
    match record_at(alloc, text, 1) {
        Some(header) => begins_with(&header, SCRIPT_HEADERS),
        None => false,
    }
}

// How many of the first records, of this number, begin with one of the words.
fn count(alloc: Global, text: &[u8], number: u32, words: &[&str]) -> usize {
    let (mut left, mut count) = (number, 0usize);
    for row in records(alloc, text) {
        match row {
            Ok(row) if left > 0 => {
                left -= 1;
                count = count.saturating_add(usize::from(begins_with(&row, words)));
            }
            _ => return count,
        }
    }
    count
}

// Whether the record begins with one of the words.
fn begins_with(row: &ByteRecord, words: &[&str]) -> bool {
    let first = row.get(0).unwrap_or(&[]);
    for word in words {
        if word.as_bytes() == first {
            return true;
        }
    }
    false
}
