//! The words of `whatif` that ask for more openings, and the changes that they mean.

use crate::change_option::ChangeOption;
use crate::failure::Failure;
use crate::words::{count, number_in, word_at};
use clap::ArgMatches;
use recording_file::{Name, NameKind};
use round_net::MAX_CAP;
use std::alloc::{AllocError, Global};
use what_if::{Change, Resource, Widening};

/// A word that asks for a row of changes, and where it stands.
#[derive(Clone, Copy)]
pub struct AskedRow<'w> {
    option: ChangeOption,
    place: usize,
    word: &'w str,
}

// A change as a part of a word asks for it.
#[derive(Clone, Copy)]
struct AskedChange<'w> {
    name: &'w str,
    widening: Widening,
}

/// The rows that the words ask for: those of devices first, then of adapters, of links, and of what is never stopped, each in the
/// order of the words.
///
/// # Errors
///
/// `NoChange` of the first word that hasn't its form.
pub fn asked_rows<'w>(alloc: Global, words: &ArgMatches<'w>) -> Result<Vec<AskedRow<'w>>, Failure> {
    let mut rows = Vec::new(alloc);
    for option in [
        ChangeOption::Device,
        ChangeOption::Adapter,
        ChangeOption::Link,
        ChangeOption::NeverStopped,
    ] {
        for place in 0..count(words, option.id()) {
            let word = word_at(words, option.id(), place);
            if !has_form(option, word) {
                return Err(Failure::NoChange(option, place));
            }
            let row = AskedRow {
                option,
                place,
                word,
            };
            rows.push(row).map_err(|_| AllocError)?;
        }
    }
    Ok(rows)
}

/// The changes that a row asks for.
///
/// # Errors
///
/// `NoSuchResource` if it names what isn't there.
pub fn changes_of_row(
    alloc: Global,
    row: AskedRow<'_>,
    names: &[Name],
) -> Result<Vec<Change>, Failure> {
    let mut changes = Vec::new(alloc);
    if row.option == ChangeOption::NeverStopped
        && let Some(device) = named(names, NameKind::Device, row.word)
    {
        // A name may have commas.
        let resource = Resource::Device(device);
        let widening = Widening::NeverStopped;
        push(&mut changes, Change { resource, widening })?;
        return Ok(changes);
    }
    let mut left = Some(row.word);
    for _ in 0..u64::MAX {
        let Some(word) = left else {
            break;
        };
        let Some((asked, rest)) = first_change(row.option, word) else {
            return Err(names_nothing(row));
        };
        let Some(resource) = resource_of(row.option, names, asked.name) else {
            return Err(names_nothing(row));
        };
        let widening = asked.widening;
        push(&mut changes, Change { resource, widening })?;
        left = rest;
    }
    Ok(changes)
}

/// That a row names what isn't there.
pub fn names_nothing(row: AskedRow<'_>) -> Failure {
    Failure::NoSuchResource(row.option, row.place)
}

fn push(changes: &mut Vec<Change>, change: Change) -> Result<(), AllocError> {
    changes.push(change)?;
    Ok(())
}

// Whether the word is changes with commas between them.
fn has_form(option: ChangeOption, word: &str) -> bool {
    let mut left = Some(word);
    for _ in 0..u64::MAX {
        let Some(word) = left else {
            break;
        };
        let Some((_, rest)) = first_change(option, word) else {
            return false;
        };
        left = rest;
    }
    true
}

// The first change of a word, and what stands behind the comma after it. A name ends at the first equals sign, so that it may
// have commas.
fn first_change(option: ChangeOption, word: &str) -> Option<(AskedChange<'_>, Option<&str>)> {
    if option == ChangeOption::NeverStopped {
        let (name, rest) = cut(word);
        let widening = Widening::NeverStopped;
        return (!name.is_empty()).then_some((AskedChange { name, widening }, rest));
    }
    let (name, changed) = word.split_once('=')?;
    let (change, rest) = cut(changed);
    let widening = widening_in(change)?;
    (!name.is_empty()).then_some((AskedChange { name, widening }, rest))
}

// What stands before the first comma, and what stands behind it.
fn cut(word: &str) -> (&str, Option<&str>) {
    match word.split_once(',') {
        Some((first, rest)) => (first, Some(rest)),
        None => (word, None),
    }
}

// A plus sign, an x or an equals sign, and a number of openings.
fn widening_in(word: &str) -> Option<Widening> {
    if let Some(number) = word.strip_prefix('+') {
        Some(Widening::More(openings_in(number)?))
    } else if let Some(number) = word.strip_prefix('x') {
        Some(Widening::Times(openings_in(number)?))
    } else {
        Some(Widening::AtLeast(openings_in(word.strip_prefix('=')?)?))
    }
}

fn openings_in(word: &str) -> Option<u32> {
    let number = number_in(word)?;
    (1 <= number && number <= MAX_CAP).then_some(number)
}

// What goes by this name or number.
fn resource_of(option: ChangeOption, names: &[Name], name: &str) -> Option<Resource> {
    if option.kind() == NameKind::Device {
        if let Some(number) = name.strip_prefix("adapter:") {
            return Some(Resource::Adapter(number_in(number)?));
        }
        if let Some(number) = name.strip_prefix("link:") {
            return Some(Resource::Link(number_in(number)?));
        }
    }
    let number = match number_in(name) {
        Some(number) => number,
        None => named(names, option.kind(), name)?,
    };
    Some(match option {
        ChangeOption::Device | ChangeOption::NeverStopped => Resource::Device(number),
        ChangeOption::Adapter => Resource::Adapter(number),
        ChangeOption::Link => Resource::Link(number),
    })
}

// The number of what has this name.
fn named(names: &[Name], kind: NameKind, text: &str) -> Option<u32> {
    for name in names {
        if name.kind() == kind && name.text() == text {
            return Some(name.number());
        }
    }
    None
}
