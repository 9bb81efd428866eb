//! Where a text comes from: a file, or standard input.

use crate::failure::Failure;
use crate::front::Front;
use clap::ArgMatches;
use either::{Either, Left, Right};
use std::alloc::Global;
use std::fs::File;
use std::io::{Read, StdinLock};
use std::{env, io};
use views::{CaptureFacts, facts_of};

// How many comments may stand before a text, and how long one may be.
const MAX_COMMENTS: usize = 256;

const MAX_COMMENT_BYTES: usize = 1_048_576;

/// A file, or standard input.
pub type Device = Either<File, StdinLock<'static>>;

/// The name of a file that means standard input.
pub const STANDARD_INPUT: &str = "-";

/// An argument that names a file.
#[derive(Clone, Copy, Debug)]
pub enum Argument {
    /// That of a trace.
    Trace,
    /// That of a report.
    Report,
    /// That of a script.
    Script,
    /// That of a trace or recording before a change.
    Before,
    /// That of one after it.
    After,
}

impl Argument {
    /// What it is called in the help.
    pub fn word(self) -> &'static str {
        match self {
            Argument::Trace => "TRACE",
            Argument::Report => "REPORT",
            Argument::Script => "SCRIPT",
            Argument::Before => "BEFORE",
            Argument::After => "AFTER",
        }
    }

    /// What stands after 'cannot open': which of two files it is.
    pub fn of_two(self) -> &'static str {
        match self {
            Argument::Trace | Argument::Report | Argument::Script => "",
            Argument::Before => " BEFORE",
            Argument::After => " AFTER",
        }
    }

    /// The name that the words give the file; standard input's if it is left out.
    pub fn file_name<'a>(self, words: &ArgMatches<'a>) -> &'a str {
        words.get_str(self.word()).unwrap_or(STANDARD_INPUT)
    }
}

/// A file or standard input, to be read once. What is read is kept if a fault in it is to be shown.
#[derive(Drop)]
pub struct Source<'a, D> {
    /// The name of the file; `-` is standard input.
    pub name: &'a str,
    device: D,
    // The first byte after the comments, until it is read.
    first: Option<u8>,
    // The first of the lines before the text that are comments.
    comment: Vec<u8>,
    kept: Option<Vec<u8>>,
    front: Front,
    failed: Option<io::Error>,
}

impl<D> Source<'_, D> {
    /// The first bytes that were read.
    pub fn front(&self) -> &Front {
        &self.front
    }

    /// What was read so far, if that is kept.
    pub fn kept(&self) -> Option<&[u8]> {
        self.kept.as_deref()
    }

    /// Why a read failed, if one did.
    pub fn failed(&self) -> Option<io::Error> {
        self.failed
    }

    /// What is known of how the recording's capture was read, if it says so.
    pub fn facts(&self, alloc: Global) -> Option<CaptureFacts> {
        facts_of(alloc, &self.comment)
    }
}

impl<D: Read> Source<'_, D> {
    // Reads the lines before the text that begin with `#`, and keeps the first one. A line feed for each stands in what is kept, so
    // that lines are counted as the file has them.
    fn take_comments(&mut self) {
        for number in 0..MAX_COMMENTS {
            let Some(byte) = self.next_byte() else {
                return;
            };
            if byte != b'#' {
                self.first = Some(byte);
                return;
            }
            self.take_comment(number == 0);
        }
    }

    // Reads a comment to the end of its line.
    fn take_comment(&mut self, is_first: bool) {
        if let Some(kept) = &mut self.kept
            && kept.push(b'\n').is_err()
        {
            self.kept = None;
        }
        if is_first && self.comment.push(b'#').is_err() {
            return;
        }
        for _ in 0..MAX_COMMENT_BYTES {
            match self.next_byte() {
                None | Some(b'\n') => return,
                Some(byte) => {
                    if is_first && self.comment.push(byte).is_err() {
                        return;
                    }
                }
            }
        }
    }

    // The next byte. None at the end, or if it can't be read.
    fn next_byte(&mut self) -> Option<u8> {
        let mut byte = [0u8; 1];
        match self.device.read(&mut byte) {
            Ok(1) => Some(byte[0]),
            Ok(_) => None,
            Err(error) => {
                self.failed = Some(error);
                None
            }
        }
    }

    // Keeps what was read.
    fn keep(&mut self, bytes: &[u8]) {
        self.front.keep(bytes);
        if let Some(kept) = &mut self.kept {
            // Without memory for them nothing is kept any more.
            if kept.extend_from_slice(bytes).is_err() {
                self.kept = None;
            }
        }
    }
}

impl<D: Read> Read for Source<'_, D> {
    /// Reads as the file does, after its comments.
    fn read(&mut self, buf: &mut [u8]) -> io::Result<usize> {
        if let Some(first) = self.first
            && !buf.is_empty()
        {
            buf[0] = first;
            self.first = None;
            self.keep(&buf[..1]);
            return Ok(1);
        }
        let count = match self.device.read(buf) {
            Ok(count) => count,
            Err(error) => {
                self.failed = Some(error);
                return Err(error);
            }
        };
        self.keep(&buf[..count]);
        Ok(count)
    }
}

/// Whether a fault gets more than its line: by `--verbose`, or by the environment.
pub fn is_verbose(rt: &HostRuntime, words: &ArgMatches<'_>) -> bool {
    words.get_flag("verbose") || asks_more(rt)
}

/// Whether `CAMXPT_VERBOSE=1` stands in the environment.
pub fn asks_more(rt: &HostRuntime) -> bool {
    env::var(rt, "CAMXPT_VERBOSE").is_ok_and(|value| value.as_str() == "1")
}

/// Opens the file that an argument names; `-` is standard input. What is read of it is kept if a fault gets more than its line.
pub fn open<'a>(
    rt: &HostRuntime,
    words: &ArgMatches<'a>,
    argument: Argument,
) -> Result<Source<'a, Device>, Failure> {
    let name = argument.file_name(words);
    let device = if name == STANDARD_INPUT {
        Right(rt.reader())
    } else {
        match File::open(rt, name) {
            Ok(file) => Left(file),
            Err(error) => return Err(Failure::CannotOpen(argument, error)),
        }
    };
    Ok(with_comments_read(rt.alloc(), name, device, is_verbose(rt, words)))
}

// A text whose comments were read.
fn with_comments_read<D: Read>(
    alloc: Global,
    name: &str,
    device: D,
    is_kept: bool,
) -> Source<'_, D> {
    let mut source = Source {
        name,
        device,
        first: None,
        comment: Vec::new(alloc),
        kept: is_kept.then_some(Vec::new(alloc)),
        front: Front::new(),
        failed: None,
    };
    source.take_comments();
    source
}

/// Two files that are read one after the other.
#[derive(Drop)]
pub struct Both<'a> {
    /// The one that is read first.
    pub first: Source<'a, Device>,
    /// The other one.
    pub second: Source<'a, Device>,
    /// What holds the descriptor of a standard input that was closed.
    pub folder: io::Result<File>,
}

/// Opens the files that two arguments name, before one of them is read. At most one can be standard input.
pub fn open_both<'a>(
    rt: &HostRuntime,
    words: &ArgMatches<'a>,
    first: Argument,
    second: Argument,
) -> Result<Both<'a>, Failure> {
    if first.file_name(words) == STANDARD_INPUT && second.file_name(words) == STANDARD_INPUT {
        return Err(Failure::StandardInputTwice(first, second));
    }
    // If standard input was closed, the next file would get its descriptor and be read in its place. A folder takes it, which
    // can't be read.
    let folder = File::open(rt, "/");
    Ok(Both {
        first: open(rt, words, first)?,
        second: open(rt, words, second)?,
        folder,
    })
}

/// Standard input, which is kept if the environment asks for more on a fault.
pub fn input(rt: &HostRuntime) -> Source<'static, StdinLock<'static>> {
    with_comments_read(rt.alloc(), STANDARD_INPUT, rt.reader(), asks_more(rt))
}
