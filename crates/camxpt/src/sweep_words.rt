//! The words of `sweep`.

use crate::words::{count, number_in, word_at};
use clap::ArgMatches;
use std::alloc::{AllocError, Global};
use sweep::{Choice, ChoiceFault, Place};
use thiserror::Error;

/// What has openings that are tried.
#[derive(Clone, Copy)]
enum PlaceKind {
    Device,
    Adapter,
}

impl PlaceKind {
    // The name of its option.
    fn option(self) -> &'static str {
        match self {
            PlaceKind::Device => "openings",
            PlaceKind::Adapter => "adapter",
        }
    }

    // Why a word that hasn't its form is refused.
    fn form(self) -> &'static str {
        match self {
            PlaceKind::Device => "not a device and its openings, as 0:1,2,4,8",
            PlaceKind::Adapter => "not an adapter and its openings, as 0:8,16",
        }
    }

    // Why a choice that breaks a rule is refused.
    fn why(self, fault: ChoiceFault) -> &'static str {
        match (fault, self) {
            (ChoiceFault::NoPlace, PlaceKind::Device) => "the script has no such device",
            (ChoiceFault::NoPlace, PlaceKind::Adapter) => "the script has no such adapter",
            (ChoiceFault::Twice, PlaceKind::Device) => "the device is given twice",
            (ChoiceFault::Twice, PlaceKind::Adapter) => "the adapter is given twice",
            (ChoiceFault::NoOpenings | ChoiceFault::BadOpenings, _) => "openings are from 1 to 255",
        }
    }
}

/// A word that is refused, and why. Its text is the line on standard error, after the program's name.
#[derive(Clone, Copy, Debug, Error)]
#[error("--{option} {word}: {why}")]
pub struct WordFault<'a> {
    option: &'static str,
    word: &'a str,
    why: &'static str,
}

/// The choices that the words ask for: devices first, then adapters, each in the order of the words.
///
/// # Errors
///
/// The first word that hasn't its form, if the outer result is `Ok`.
pub fn choices_of<'a>(
    alloc: Global,
    words: &ArgMatches<'a>,
) -> Result<Result<Vec<Choice>, WordFault<'a>>, AllocError> {
    let mut choices = Vec::new(alloc);
    for kind in [PlaceKind::Device, PlaceKind::Adapter] {
        let option = kind.option();
        for place in 0..count(words, option) {
            let word = word_at(words, option, place);
            let Some(choice) = choice_in(alloc, kind, word)? else {
                let why = kind.form();
                return Ok(Err(WordFault { option, word, why }));
            };
            choices.push(choice)?;
        }
    }
    Ok(Ok(choices))
}

/// Why the choice at this place is refused, with its word.
pub fn refusal<'a>(words: &ArgMatches<'a>, at: usize, why: ChoiceFault) -> WordFault<'a> {
    let devices = count(words, PlaceKind::Device.option());
    let (kind, place) = if at < devices {
        (PlaceKind::Device, at)
    } else {
        (PlaceKind::Adapter, at - devices)
    };
    WordFault {
        option: kind.option(),
        word: word_at(words, kind.option(), place),
        why: kind.why(why),
    }
}

// A number, a colon, and numbers with commas between them.
fn choice_in(alloc: Global, kind: PlaceKind, word: &str) -> Result<Option<Choice>, AllocError> {
    let Some((number, openings)) = word.split_once(':') else {
        return Ok(None);
    };
    let (Some(number), Some(openings)) = (number_in(number), numbers_in(alloc, openings)?) else {
        return Ok(None);
    };
    let place = match kind {
        PlaceKind::Device => Place::Device(number),
        PlaceKind::Adapter => Place::Adapter(number),
    };
    Ok(Some(Choice { place, openings }))
}

fn numbers_in(alloc: Global, words: &str) -> Result<Option<Vec<u32>>, AllocError> {
    let mut numbers = Vec::new(alloc);
    for word in words.split(',') {
        match number_in(word) {
            Some(number) => numbers.push(number)?,
            None => return Ok(None),
        }
    }
    Ok(Some(numbers))
}
