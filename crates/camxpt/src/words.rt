//! The words of the command line.

use crate::failure::Failure;
use audit_report::AuditFault;
use clap::ArgMatches;
use std::env::Env;
use std::{env, io};

/// The words of the command line, the program's name first.
pub fn words(rt: &HostRuntime) -> Result<Vec<String>, Failure> {
    match env::args(rt) {
        Ok(words) => Ok(words.collect(rt.alloc())?),
        Err(error) if error.kind() == io::ErrorKind::InvalidData => Err(Failure::WordNotUtf8),
        Err(_) => Err(Failure::Audit(AuditFault::OutOfMemory)),
    }
}

/// An argument that is a number.
#[derive(Clone, Copy, Debug)]
pub enum Number {
    /// How many stays and freezes are listed.
    Top,
    /// How many seeds run a setting.
    Seeds,
    /// The seed of a run.
    Seed,
}

impl Number {
    /// What it is called in the help.
    pub fn word(self) -> &'static str {
        match self {
            Number::Top => "--top",
            Number::Seeds => "--seeds",
            Number::Seed => "SEED",
        }
    }
}

/// Refuses a number with a plus sign, which the parser of numbers takes.
pub fn check_numbers(words: &ArgMatches<'_>) -> Result<(), Failure> {
    for number in [Number::Top, Number::Seeds, Number::Seed] {
        let id = number.word().trim_start_matches('-');
        if words.get_str(id).is_some_and(|word| word.starts_with('+')) {
            return Err(Failure::NoNumber(number));
        }
    }
    Ok(())
}

/// How many words are given for an argument that may be given several times.
pub fn count(words: &ArgMatches<'_>, id: &str) -> usize {
    match words.get_strs(id) {
        Some(given) => given.len(),
        None => 0,
    }
}

/// The word at this place among them.
pub fn word_at<'a>(words: &ArgMatches<'a>, id: &str, place: usize) -> &'a str {
    match words.get_strs(id) {
        Some(given) => given.get(place).copied().unwrap_or(""),
        None => "",
    }
}

/// A number of decimal digits alone: no sign stands before it.
pub fn number_in(word: &str) -> Option<u32> {
    if word.bytes().all(|byte| byte.is_ascii_digit()) {
        word.parse::<u32>().ok()
    } else {
        None
    }
}
