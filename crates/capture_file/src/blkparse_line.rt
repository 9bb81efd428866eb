//! The lines of blkparse's default text.

use crate::block_event::{Action, Event, Extent, RequestEvent};
use crate::line_fault::{Field, LineFault};
use crate::number::number;
use crate::words::{bracketed, check_flags, device_word, next_word};

// How the lines of the statistics begin.
const STATISTICS: [&str; 9] = [
    "CPU",
    "Total (",
    "Throughput",
    "Events (",
    "Skips",
    "Input file",
    "Read",
    "PC Read",
    "IO unplugs",
];

/// The event of a line. None if the line is blank or one of the statistics.
pub fn event_of(line: &[u8]) -> Result<Option<Event<'_>>, LineFault> {
    let text = line.trim_ascii();
    if is_skipped(text) {
        return Ok(None);
    }
    let (device, text) = device_word(text)?;
    let (_, text) = number_word(text, Field::Cpu)?;
    let (_, text) = number_word(text, Field::Sequence)?;
    let (time, text) = time_word(text)?;
    let (pid, text) = number_word(text, Field::Process)?;
    let request = request_of(device, pid, text)?;
    Ok(Some(Event { time, request }))
}

fn request_of<'a>(
    device: &'a [u8],
    pid: &'a [u8],
    text: &'a [u8],
) -> Result<Option<RequestEvent<'a>>, LineFault> {
    let (action, text) = word(text)?;
    let (flags, text) = word(text)?;
    match action_of(action)? {
        None => Ok(None),
        Some(action) => Ok(Some(request_event(device, pid, action, flags, text)?)),
    }
}

fn request_event<'a>(
    device: &'a [u8],
    pid: &'a [u8],
    action: Action,
    flags: &'a [u8],
    text: &'a [u8],
) -> Result<RequestEvent<'a>, LineFault> {
    check_flags(flags)?;
    let process = bracketed(text).ok_or(LineFault::NotAnEvent)?;
    let extent = extent_of(text)?;
    Ok(RequestEvent {
        device,
        action,
        flags,
        extent,
        process,
        pid,
        priority: None,
    })
}

// Blank lines, and those of the statistics.
fn is_skipped(text: &[u8]) -> bool {
    match text.first() {
        None => true,
        Some(first) => !first.is_ascii_digit() && is_statistics(text),
    }
}

fn is_statistics(text: &[u8]) -> bool {
    STATISTICS
        .iter()
        .any(|word| text.starts_with(word.as_bytes()))
}

fn word(text: &[u8]) -> Result<(&[u8], &[u8]), LineFault> {
    next_word(text).ok_or(LineFault::NotAnEvent)
}

fn number_word(text: &[u8], field: Field) -> Result<(&[u8], &[u8]), LineFault> {
    let (digits, rest) = word(text)?;
    match number(digits) {
        None => Err(LineFault::BadNumber(field)),
        Some(_) => Ok((digits, rest)),
    }
}

// Seconds with nine digits after the point.
fn time_word(text: &[u8]) -> Result<(u64, &[u8]), LineFault> {
    let (digits, rest) = word(text)?;
    match seconds(digits) {
        None => Err(LineFault::BadNumber(Field::Time)),
        Some(time) => Ok((time, rest)),
    }
}

fn seconds(digits: &[u8]) -> Option<u64> {
    let point = digits.iter().position(|byte| *byte == b'.')?;
    let fraction = digits.get(point..)?.get(1..)?;
    if fraction.len() != 9 {
        return None;
    }
    number(digits.get(..point)?)?
        .checked_mul(1_000_000_000)?
        .checked_add(number(fraction)?)
}

// None for the actions that say nothing of when a request arrives or starts.
fn action_of(word: &[u8]) -> Result<Option<Action>, LineFault> {
    match word {
        [letter] => action_of_letter(*letter),
        [b'U', b'T'] => Ok(None),
        _ => Err(LineFault::NotAnEvent),
    }
}

fn action_of_letter(letter: u8) -> Result<Option<Action>, LineFault> {
    match letter {
        b'Q' => Ok(Some(Action::Arrives)),
        b'M' => Ok(Some(Action::JoinsEnd)),
        b'F' => Ok(Some(Action::JoinsFront)),
        b'D' => Ok(Some(Action::Starts)),
        b'R' => Ok(Some(Action::Returns)),
        b'C' => Ok(Some(Action::Completes)),
        b'G' | b'I' | b'A' | b'X' | b'm' | b'P' | b'U' | b'B' | b'S' => Ok(None),
        _ => Err(LineFault::NotAnEvent),
    }
}

fn extent_of(text: &[u8]) -> Result<Extent, LineFault> {
    let (first, rest) = word(text)?;
    match first.first() {
        Some(b'[' | b'(') => Ok(Extent::None(None)),
        _ => match number(first) {
            None => Err(LineFault::BadNumber(Field::Sector)),
            Some(sector) => extent_from(sector, rest),
        },
    }
}

// The end of a flush, or of a write's flush, has a sector and no count of them; a command has its bytes there.
fn extent_from(sector: u64, text: &[u8]) -> Result<Extent, LineFault> {
    let (second, rest) = word(text)?;
    match second.first() {
        Some(b'+') => match sectors_of(rest)? {
            0 => Ok(Extent::None(Some(sector))),
            sectors => Ok(Extent::Sectors(sector, sectors)),
        },
        Some(b'(' | b'[') => Ok(Extent::None(Some(sector))),
        _ => Err(LineFault::NotAnEvent),
    }
}

fn sectors_of(text: &[u8]) -> Result<u64, LineFault> {
    let (digits, _) = word(text)?;
    number(digits).ok_or(LineFault::BadNumber(Field::Sectors))
}
