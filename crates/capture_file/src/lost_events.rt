//! What tracers say of events that they lost.

use crate::number::number;

/// How many events were lost, and how many there were in all, if the tracer says so.
#[derive(Clone, Copy)]
pub struct Lost {
    pub lost: u64,
    pub written: u64,
}

// The head of the kernel's own `trace`.
const WRITTEN: &str = "# entries-in-buffer/entries-written:";

/// What a line says of lost events: the head of the kernel's `trace`, `CPU:1 [LOST 12 EVENTS]` in it, perf's `PERF_RECORD_LOST lost 12`,
/// trace-cmd's `CPU:1 [12 EVENTS DROPPED]`, bpftrace's `Lost 12 events`, and `Skips: 2 forward (12 - 0.1%)` of blkparse. None if it says
/// nothing of them.
pub fn lost_in(line: &[u8]) -> Option<Lost> {
    let text = line.trim_ascii();
    if let Some(counts) = text.strip_prefix(WRITTEN.as_bytes()) {
        return written_in(counts);
    }
    let lost = if text.starts_with(b"CPU") || text.starts_with(b"cpu") {
        first_number_after(text, b"[LOST ")
            .or_else(|| first_number_after(text, b"["))
            .filter(|_| has(text, b"LOST") || has(text, b"DROPPED"))?
    } else if text.starts_with(b"Lost ") && text.ends_with(b" events") {
        first_number_after(text, b"Lost ")?
    } else if text.starts_with(b"Skips:") {
        first_number_after(text, b"(")?
    } else {
        first_number_after(text, b"PERF_RECORD_LOST lost ")?
    };
    Some(Lost { lost, written: 0 })
}

// Of `923834/1137502   #P:4`.
fn written_in(counts: &[u8]) -> Option<Lost> {
    let counts = counts.trim_ascii_start();
    let slash = counts.iter().position(|byte| *byte == b'/')?;
    let kept = number(counts.get(..slash)?)?;
    let rest = counts.get(slash..)?.get(1..)?;
    let written = leading_number(rest)?;
    Some(Lost {
        lost: written.saturating_sub(kept),
        written,
    })
}

fn has(text: &[u8], word: &[u8]) -> bool {
    after(text, word).is_some()
}

// What comes after a word's first place in a text.
fn after<'a>(text: &'a [u8], word: &[u8]) -> Option<&'a [u8]> {
    for start in 0..text.len() {
        if let Some(rest) = text.get(start..).and_then(|end| end.strip_prefix(word)) {
            return Some(rest);
        }
    }
    None
}

fn first_number_after(text: &[u8], word: &[u8]) -> Option<u64> {
    leading_number(after(text, word)?)
}

fn leading_number(text: &[u8]) -> Option<u64> {
    let end = text
        .iter()
        .position(|byte| !byte.is_ascii_digit())
        .unwrap_or(text.len());
    number(text.get(..end)?)
}
