//! The front of an input, by which a capture is recognized that is given in place of a trace or a recording.

use capture_file::Packed;

/// How many bytes are kept.
const KEPT: usize = 256;

/// The first bytes of an input.
#[derive(Clone, Copy)]
pub struct Front {
    bytes: [u8; KEPT],
    filled: usize,
}

impl Front {
    /// The front of an input of which nothing was read yet.
    pub fn new() -> Front {
        Front {
            bytes: [0; KEPT],
            filled: 0,
        }
    }

    /// Keeps as many of these bytes, which were read next, as there is room for.
    pub fn keep(&mut self, read: &[u8]) {
        for byte in read {
            match self.bytes.get_mut(self.filled) {
                Some(place) => *place = *byte,
                None => return,
            }
            self.filled = self.filled.saturating_add(1);
        }
    }

    /// What prints the input as text, if it isn't text.
    pub fn packed(&self) -> Option<Packed> {
        Packed::of(self.bytes.get(..self.filled)?)
    }

    /// Whether nothing was read.
    pub fn is_empty(&self) -> bool {
        self.filled == 0
    }

    /// Of which kind of capture the input seems to be: what `import` takes it from, and what it is in words.
    pub fn capture(&self) -> Option<(&'static str, &'static str)> {
        let kept = self.bytes.get(..self.filled)?;
        if kept.starts_with(b"TIME(s)") {
            return Some(("biosnoop", "what biosnoop prints"));
        }
        let line = kept.split(|byte| *byte == b'\n').next()?;
        if line.starts_with(b"fio version ") {
            Some(("fio", "a log of fio"))
        } else if is_table(line) {
            Some(("csv", "a table of requests"))
        } else if is_event(line) {
            Some(("blkparse", "what blkparse prints"))
        } else if is_tracepoint(line) {
            Some(("tracepoints", "what the kernel's tracepoints print"))
        } else {
            None
        }
    }
}

// Whether a line names the columns that a table of requests has to have.
fn is_table(line: &[u8]) -> bool {
    line.split(|byte| *byte == b',')
        .any(|column| column == b"arrival".as_slice())
}

// Whether a line has a processor in brackets, and after it a time and the name of an event, each before a colon.
fn is_tracepoint(line: &[u8]) -> bool {
    let mut words = line
        .split(|byte| *byte == b' ')
        .filter(|word| !word.is_empty())
        .skip_while(|word| !is_processor(word))
        .skip(1)
        .skip_while(|word| !word.ends_with(b":"));
    let time = words.next().and_then(|word| word.strip_suffix(b":"));
    is_number_pair(time, b'.') && words.next().is_some_and(|word| word.ends_with(b":"))
}

fn is_processor(word: &[u8]) -> bool {
    let inner = word
        .strip_prefix(b"[")
        .and_then(|rest| rest.strip_suffix(b"]"));
    inner.is_some_and(|inner| !inner.is_empty()) && is_number(inner)
}

// Whether a line begins as an event of blkparse does: a device's two numbers, a processor, a count, and a time in seconds.
fn is_event(line: &[u8]) -> bool {
    let mut words = line
        .split(|byte| *byte == b' ')
        .filter(|word| !word.is_empty());
    let (device, cpu, count, time) = (words.next(), words.next(), words.next(), words.next());
    is_number_pair(device, b',') && is_number(cpu) && is_number(count) && is_number_pair(time, b'.')
}

fn is_number(word: Option<&[u8]>) -> bool {
    word.is_some_and(|word| word.iter().all(|byte| byte.is_ascii_digit()))
}

// Whether a word is two numbers with this byte between them.
fn is_number_pair(word: Option<&[u8]>, between: u8) -> bool {
    let Some(word) = word else {
        return false;
    };
    let mut numbers = word.split(|byte| *byte == between);
    let (first, second) = (numbers.next(), numbers.next());
    second.is_some() && numbers.next().is_none() && is_number(first) && is_number(second)
}
