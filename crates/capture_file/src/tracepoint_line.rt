//! The kernel's block tracepoints, as `perf script`, `trace-cmd report` and the kernel's own `trace` print them.

use crate::block_event::{Action, Event, Extent, RequestEvent};
use crate::line_fault::{Field, LineFault};
use crate::number::{hexadecimal, number, time_of};
use crate::priority::class_priority;
use crate::words::{bracketed, check_flags, device_word, next_word};

// How the lines begin that aren't events: comments, and the head of `trace-cmd report`.
const HEADS: [&str; 4] = ["#", "cpus=", "CPU ", "version ="];

// How many words stand between the processor and the time at most: the kernel's flags.
const MAX_FLAGS: u32 = 2;

// The kinds of events that say something of a request.
const KINDS: [(&str, Action, Form); 7] = [
    ("block_bio_queue", Action::Arrives, Form::Bio),
    ("block_bio_backmerge", Action::JoinsEnd, Form::Bio),
    ("block_bio_frontmerge", Action::JoinsFront, Form::Bio),
    ("block_rq_merge", Action::JoinsEnd, Form::Request),
    ("block_rq_issue", Action::Starts, Form::Request),
    ("block_rq_requeue", Action::Returns, Form::Ended),
    ("block_rq_complete", Action::Completes, Form::Ended),
];

// What stands between the flags and the sectors: nothing, the bytes and the command, or the command.
#[derive(Clone, Copy)]
enum Form {
    Bio,
    Request,
    Ended,
}

/// The event of a line. None if the line is blank, a comment, or an event of another kind.
pub fn tracepoint_of(line: &[u8]) -> Result<Option<Event<'_>>, LineFault> {
    let text = line.trim_ascii();
    if text.is_empty() || HEADS.iter().any(|head| text.starts_with(head.as_bytes())) {
        return Ok(None);
    }
    let (task, text) = at_processor(text).ok_or(LineFault::NotAnEvent)?;
    let (time, text) = time_in(text)?;
    let (name, text) = word(text)?;
    let name = name.strip_suffix(b":").ok_or(LineFault::NotAnEvent)?;
    let request = match kind_of(name) {
        None => None,
        Some((action, form)) => Some(request_of(action, form, task, text)?),
    };
    Ok(Some(Event { time, request }))
}

// What stands before the first number in square brackets, and what comes after that.
fn at_processor(text: &[u8]) -> Option<(&[u8], &[u8])> {
    let mut rest = text;
    for _ in 0..text.len() {
        let open = rest.iter().position(|byte| *byte == b'[')?;
        rest = rest.get(open..)?.get(1..)?;
        if let Some(close) = rest.iter().position(|byte| *byte == b']')
            && number(rest.get(..close)?).is_some()
        {
            let before = text.len().checked_sub(rest.len())?.checked_sub(1)?;
            return Some((
                text.get(..before)?.trim_ascii(),
                rest.get(close..)?.get(1..)?,
            ));
        }
    }
    None
}

// The time, after flags that the kernel prints of processors.
fn time_in(text: &[u8]) -> Result<(u64, &[u8]), LineFault> {
    let mut text = text;
    for _ in 0..=MAX_FLAGS {
        let (stamp, rest) = word(text)?;
        text = rest;
        if let Some(digits) = stamp.strip_suffix(b":") {
            if digits.contains(&b'.')
                && let Some(time) = time_of(digits, 1_000_000_000)
            {
                return Ok((time, rest));
            }
            return Err(LineFault::BadNumber(Field::Time));
        }
    }
    Err(LineFault::NotAnEvent)
}

// An event of blocks, with or without the name of its group.
fn kind_of(name: &[u8]) -> Option<(Action, Form)> {
    let name = name.strip_prefix(b"block:").unwrap_or(name);
    for (known, action, form) in KINDS {
        if known.as_bytes() == name {
            return Some((action, form));
        }
    }
    None
}

fn request_of<'a>(
    action: Action,
    form: Form,
    task: &'a [u8],
    text: &'a [u8],
) -> Result<RequestEvent<'a>, LineFault> {
    let (device, text) = device_word(text)?;
    let (flags, text) = word(text)?;
    check_flags(flags)?;
    let (bytes, text) = bytes_in(form, text)?;
    let (is_command, text) = command_in(form, text)?;
    let (sector, text) = numbered(text, Field::Sector)?;
    let (plus, text) = word(text)?;
    if plus != b"+".as_slice() {
        return Err(LineFault::NotAnEvent);
    }
    let (sectors, text) = numbered(text, Field::Sectors)?;
    let process = bracketed(text).ok_or(LineFault::NotAnEvent)?;
    let extent = if is_command || sectors == 0 && bytes > 0 {
        Extent::None(None)
    } else if sectors == 0 {
        Extent::None(Some(sector))
    } else {
        Extent::Sectors(sector, sectors)
    };
    Ok(RequestEvent {
        device,
        action,
        flags,
        extent,
        process,
        pid: pid_of(task),
        priority: priority_in(text),
    })
}

fn bytes_in(form: Form, text: &[u8]) -> Result<(u64, &[u8]), LineFault> {
    if form == Form::Request {
        numbered(text, Field::Bytes)
    } else {
        Ok((0, text))
    }
}

// Whether there is a command between parentheses.
fn command_in(form: Form, text: &[u8]) -> Result<(bool, &[u8]), LineFault> {
    if form == Form::Bio {
        return Ok((false, text));
    }
    let Some(inner) = text.trim_ascii_start().strip_prefix(b"(") else {
        return Err(LineFault::NotAnEvent);
    };
    let Some(close) = inner.iter().position(|byte| *byte == b')') else {
        return Err(LineFault::NotAnEvent);
    };
    let rest = inner.get(close..).and_then(|rest| rest.get(1..));
    Ok((close > 0, rest.unwrap_or(b"")))
}

// The I/O class, a hint and the level, which kernels from 6.5 on print: `be,0,4`. A class that isn't known by name is a number.
fn priority_in(text: &[u8]) -> Option<u32> {
    let (ioprio, _) = next_word(text)?;
    let mut parts = ioprio.split(|byte| *byte == b',');
    let class = parts.next()?;
    parts.next()?;
    let level = number(parts.next()?)?;
    let class = match class {
        b"rt" => 1,
        b"be" => 2,
        b"idle" => 3,
        _ => hexadecimal(class.strip_prefix(b"0x")?)?,
    };
    if class == 0 || class > 3 || level > 7 {
        return None;
    }
    Some(class_priority((class << 13) | level))
}

// The process id, which stands at the end of the name, or after it.
fn pid_of(task: &[u8]) -> &[u8] {
    let task = match task.iter().position(|byte| *byte == b'(') {
        Some(open) if task.ends_with(b")") => task.get(..open).unwrap_or(task).trim_ascii(),
        _ => task,
    };
    let begin = task
        .iter()
        .rposition(|byte| !byte.is_ascii_digit())
        .and_then(|last| task.get(last..))
        .and_then(|rest| rest.get(1..));
    begin.unwrap_or(task)
}

fn word(text: &[u8]) -> Result<(&[u8], &[u8]), LineFault> {
    next_word(text).ok_or(LineFault::NotAnEvent)
}

fn numbered(text: &[u8], field: Field) -> Result<(u64, &[u8]), LineFault> {
    let (digits, rest) = word(text)?;
    match number(digits) {
        None => Err(LineFault::BadNumber(field)),
        Some(value) => Ok((value, rest)),
    }
}
