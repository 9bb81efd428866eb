//! Feeds a reader of captures line by line.

use crate::line_fault::LineFault;
use crate::packed::Packed;
use memchr::{memchr, memchr_iter};
use std::alloc::{AllocError, Global};
use std::io;
use std::io::Read;
use thiserror::Error;

/// The most bytes that a line has, without its end.
pub const MAX_LINE_BYTES: usize = 65_536;

// From so many bytes on a line has no end.
const ENDLESS: usize = 16_777_216;

// How many bytes a read asks for.
const CHUNK: usize = 65_536;

/// What takes an input line by line.
pub trait LineReader {
    /// Takes a line, without its line feed.
    fn take(&mut self, line: &[u8]) -> Result<(), LineFault>;

    /// Counts a line that was refused and is left out.
    fn count_refused(&mut self);

    /// Whether it needs no more lines.
    fn is_done(&self) -> bool {
        false
    }
}

/// Why an input wasn't read to its end.
#[derive(Clone, Copy, Debug, Error)]
pub enum ReadFault {
    /// The line of this number, from 1 on, is refused.
    #[error("line {0}: {1}")]
    Line(u64, LineFault),
    /// The input has no line, blank ones aside.
    #[error("there is nothing in it: capture again, and see what the tool says on standard error")]
    Empty,
    /// The input isn't text.
    #[error("{0}")]
    Packed(Packed),
    /// A read failed.
    #[error("{what}", what = failed(.0))]
    ReadFailed(io::Error),
    /// There is no memory left.
    #[error("out of memory")]
    OutOfMemory,
}

// What the system says of a folder.
const IS_A_DIRECTORY: i32 = 21;

/// Why a read failed.
pub fn failed(error: &io::Error) -> &'static str {
    if error.raw_os_error() == Some(IS_A_DIRECTORY) {
        "it is a directory"
    } else {
        "read failed"
    }
}

/// Which of the lines that are refused are left out.
#[derive(Clone, Copy)]
pub enum Tolerance {
    /// None: the first one is a fault.
    Strict,
    /// As many as one in a thousand.
    Few,
    /// All.
    Lenient,
}

// So many lines are read before it is a fault that more than one in a thousand was refused.
const MAX_REFUSED: u64 = 1_000;

/// The lines that were refused so far, of one or more inputs.
#[derive(Drop)]
pub struct Refused {
    tolerance: Tolerance,
    lines: u64,
    count: u64,
    // The input's number, and the line's.
    input: usize,
    first: Option<(usize, u64, LineFault)>,
    text: Vec<u8>,
    // Whether that line ends the reading.
    is_last: bool,
    // Whether the last line of an input has no end and was left out.
    is_cut: bool,
}

impl Refused {
    /// None yet.
    pub fn new(alloc: Global, tolerance: Tolerance) -> Refused {
        Refused {
            tolerance,
            lines: 0,
            count: 0,
            input: 0,
            first: None,
            text: Vec::new(alloc),
            is_last: false,
            is_cut: false,
        }
    }

    /// Whether the last line of an input has no end, isn't one of its kind, and was left out.
    pub fn is_cut(&self) -> bool {
        self.is_cut
    }

    /// The first line that was refused: the number of its input and its own, and why.
    pub fn first(&self) -> Option<(usize, u64, LineFault)> {
        self.first
    }

    /// That line, or its first 65,536 bytes.
    pub fn text(&self) -> &[u8] {
        &self.text
    }

    /// The next lines are those of the input of this number.
    pub fn begin_input(&mut self, number: usize) {
        self.input = number;
    }

    /// The first line that was refused, if more were than may be left out; or the last one, if it ended the reading.
    pub fn fault(&self) -> Option<(usize, u64, LineFault)> {
        let is_too_many = match self.tolerance {
            _ if self.is_last => true,
            Tolerance::Strict => self.count > 0,
            Tolerance::Few => self.count.saturating_mul(1_000) > self.lines,
            Tolerance::Lenient => false,
        };
        if is_too_many { self.first } else { None }
    }

    // Whether nothing more need be read to know that there is a fault.
    fn is_enough(&self) -> bool {
        let is_sure = self.is_last
            || self.tolerance == Tolerance::Strict
            || self.count > MAX_REFUSED;
        is_sure && self.fault().is_some()
    }

    fn add(&mut self, number: u64, fault: LineFault, line: &[u8]) -> Result<(), AllocError> {
        self.count = self.count.saturating_add(1);
        if self.first.is_none() || self.is_last {
            self.text.clear();
            self.text.extend_from_slice(line)?;
            self.first = Some((self.input, number, fault));
        }
        Ok(())
    }
}

/// Feeds the lines of an input to a reader until it needs no more, and answers whether there was one that isn't blank. A line ends with a line feed, or
/// with a carriage return and a line feed; the last one may lack its end. Besides what the reader keeps this takes 128 KiB. Lines that
/// are refused are put down in `refused`: also those that have a carriage return inside, or more than 65,536 bytes. But if the last of
/// several lines has no end and would be refused, it was cut, and is left out, unless all lines have to be taken.
///
/// # Errors
///
/// `Line` once more lines were refused than may be left out, with the first of all; [`Refused::fault`] says at the end whether it were too
/// many. `Packed` if the input isn't text. `ReadFailed` if a read fails, `OutOfMemory` if no memory is left.
pub fn read_lines<R: Read, T: LineReader>(
    alloc: Global,
    input: &mut R,
    refused: &mut Refused,
    reader: &mut T,
) -> Result<bool, ReadFault> {
    let Ok(mut chunk) = vec![in alloc; 0u8; CHUNK] else {
        return Err(ReadFault::OutOfMemory);
    };
    let mut lines = Lines::new(alloc, refused);
    for turn in 0..u64::MAX {
        if reader.is_done() {
            break;
        }
        let count = read_some(input, chunk.as_mut_slice())?;
        if count == 0 {
            break;
        }
        let bytes = chunk.get(..count).unwrap_or(b"");
        if turn == 0
            && let Some(packed) = Packed::of(bytes)
        {
            return Err(ReadFault::Packed(packed));
        }
        lines.take(bytes, reader)?;
    }
    lines.finish(reader)
}

fn read_some<R: Read>(input: &mut R, chunk: &mut [u8]) -> Result<usize, ReadFault> {
    match input.read(chunk) {
        Ok(count) => Ok(count),
        Err(error) => Err(ReadFault::ReadFailed(error)),
    }
}

// The line that is being put together, how many came before it, and whether one of them isn't blank.
#[derive(Drop)]
struct Lines<'a> {
    line: Vec<u8>,
    // How many bytes of the line were read.
    passed: usize,
    refused: &'a mut Refused,
    too_long: bool,
    // Whether the input ended before the line did.
    is_end: bool,
    before: u64,
    has_text: bool,
}

impl<'a> Lines<'a> {
    fn new(alloc: Global, refused: &'a mut Refused) -> Lines<'a> {
        Lines {
            line: Vec::new(alloc),
            passed: 0,
            refused,
            too_long: false,
            is_end: false,
            before: 0,
            has_text: false,
        }
    }

    fn take<T: LineReader>(&mut self, bytes: &[u8], reader: &mut T) -> Result<(), ReadFault> {
        let mut begin = 0;
        for end in memchr_iter(b'\n', bytes) {
            self.add(bytes.get(begin..end).unwrap_or(b""), reader)?;
            self.end_line(reader)?;
            if reader.is_done() {
                return Ok(());
            }
            begin = end.saturating_add(1);
        }
        self.add(bytes.get(begin..).unwrap_or(b""), reader)
    }

    // A line that is too long isn't read to its end, since it may have none. If all lines may be left out, it is read as far as a line may
    // be long at all.
    fn add<T: LineReader>(&mut self, piece: &[u8], reader: &mut T) -> Result<(), ReadFault> {
        let room = MAX_LINE_BYTES.saturating_sub(self.line.len());
        if piece.len() > room {
            self.too_long = true;
        }
        let part = piece.get(..room).unwrap_or(piece);
        if self.line.extend_from_slice(part).is_err() {
            return Err(ReadFault::OutOfMemory);
        }
        self.passed = self.passed.saturating_add(piece.len());
        let is_lenient = self.refused.tolerance == Tolerance::Lenient && self.passed <= ENDLESS;
        if self.too_long && !is_lenient {
            self.refused.is_last = true;
            return self.refuse(LineFault::TooLong, reader);
        }
        Ok(())
    }

    fn end_line<T: LineReader>(&mut self, reader: &mut T) -> Result<(), ReadFault> {
        let answer = if self.too_long {
            Err(LineFault::TooLong)
        } else {
            take_line(reader, without_return(self.line.as_slice()))
        };
        self.refused.lines = self.refused.lines.saturating_add(1);
        match answer {
            Ok(is_blank) => self.has_text = self.has_text || !is_blank,
            Err(LineFault::OutOfMemory) => return Err(ReadFault::OutOfMemory),
            Err(_) if self.is_cut() => self.refused.is_cut = true,
            Err(fault) => self.refuse(fault, reader)?,
        }
        self.line.clear();
        self.passed = 0;
        self.too_long = false;
        self.before = self.before.saturating_add(1);
        Ok(())
    }

    // Passes a line that is refused, if it may be left out.
    fn refuse<T: LineReader>(&mut self, fault: LineFault, reader: &mut T) -> Result<(), ReadFault> {
        let number = self.before.saturating_add(1);
        if self.refused.add(number, fault, &self.line).is_err() {
            return Err(ReadFault::OutOfMemory);
        }
        if self.refused.is_enough()
            && let Some((_, number, fault)) = self.refused.first
        {
            return Err(ReadFault::Line(number, fault));
        }
        reader.count_refused();
        self.has_text = true;
        Ok(())
    }

    // Whether this is the last of several lines, has no end, and may be left out.
    fn is_cut(&self) -> bool {
        self.is_end
            && self.before > 0
            && !self.too_long
            && self.refused.tolerance != Tolerance::Strict
    }

    fn finish<T: LineReader>(mut self, reader: &mut T) -> Result<bool, ReadFault> {
        if !self.line.is_empty() || self.too_long {
            self.is_end = true;
            self.end_line(reader)?;
        }
        Ok(self.has_text)
    }
}

// Gives a line to the reader, and answers whether it is blank.
fn take_line<T: LineReader>(reader: &mut T, line: &[u8]) -> Result<bool, LineFault> {
    if memchr(b'\r', line).is_some() {
        return Err(LineFault::CarriageReturn);
    }
    reader.take(line)?;
    Ok(line.trim_ascii_start().is_empty())
}

fn without_return(line: &[u8]) -> &[u8] {
    line.strip_suffix(b"\r").unwrap_or(line)
}
