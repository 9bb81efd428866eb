//! What adapters, devices, drivers, links and run levels are called.

use crate::shown::shown_name;
use cam_path::path_name;
use cam_types::Config;
use recording_file::{Name, NameKind};
use std::alloc::{AllocError, Global};
use wait_causes::{Explanation, Grouping};

// How many characters a caption has at most.
const MOST: usize = 26;

/// What a configuration's parts are called: by their numbers and paths, and by the names of the recording if it has any.
#[derive(Clone, Copy)]
pub struct Captions<'a> {
    config: &'a Config,
    names: &'a [Name],
}

impl<'a> Captions<'a> {
    /// Those of what is explained.
    pub fn of(config: &'a Config, explanation: &'a Explanation) -> Captions<'a> {
        Captions {
            config,
            names: explanation.names(),
        }
    }

    /// The configuration.
    pub fn config(self) -> &'a Config {
        self.config
    }

    /// How wide a column of captions is.
    pub fn width(self) -> usize {
        if self.names.is_empty() { 14 } else { MOST }
    }

    /// The adapter, device, driver or run level of this number as it is shown, in words, as `driver 3 database`: at most 26 characters.
    pub fn caption(self, alloc: Global, by: Grouping, number: u32) -> Result<String, AllocError> {
        shortened(alloc, &self.words(alloc, by, number)?)
    }

    /// The same for JSON, with all characters of its name as they are.
    pub fn label(self, alloc: Global, by: Grouping, number: u32) -> Result<String, AllocError> {
        cut(alloc, self.words(alloc, by, number)?)
    }

    // The same in full.
    fn words(self, alloc: Global, by: Grouping, number: u32) -> Result<String, AllocError> {
        let (word, name) = (word_of(by), self.name_by(by, number));
        let shown = match by {
            Grouping::Device => path_name(alloc, self.config, number)?,
            _ => format!(in alloc; "{number}")?,
        };
        match name {
            Some(name) => format!(in alloc; "{word} {shown} {name}"),
            None => format!(in alloc; "{word} {shown}"),
        }
    }

    /// The adapter, device or driver of this number as it is shown by its name alone, as `driver database`, or as `caption` does if it
    /// has none: at most 26 characters.
    pub fn by_name(self, alloc: Global, by: Grouping, number: u32) -> Result<String, AllocError> {
        match self.name_by(by, number) {
            Some(name) => shortened(alloc, &format!(in alloc; "{} {name}", word_of(by))?),
            None => self.caption(alloc, by, number),
        }
    }

    /// The device's path, and its name as it is shown if it has one.
    pub fn device(self, alloc: Global, device: u32) -> Result<String, AllocError> {
        let path = path_name(alloc, self.config, device)?;
        match self.name(NameKind::Device, device) {
            Some(name) => format!(in alloc; "{path} {}", shown_name(alloc, name)?),
            None => Ok(path),
        }
    }

    /// The name of the adapter, device or driver of this number, if it has one; run levels have none.
    pub fn name_by(self, by: Grouping, number: u32) -> Option<&'a str> {
        match by {
            Grouping::Adapter => self.name(NameKind::Adapter, number),
            Grouping::Device => self.name(NameKind::Device, number),
            Grouping::Driver => self.name(NameKind::Driver, number),
            Grouping::Level => None,
        }
    }

    /// The name of this kind and number, if there is one.
    pub fn name(self, kind: NameKind, number: u32) -> Option<&'a str> {
        for name in self.names {
            if name.kind() == kind && name.number() == number {
                return Some(name.text());
            }
        }
        None
    }
}

// What a row of a table by this is of.
fn word_of(by: Grouping) -> &'static str {
    match by {
        Grouping::Adapter => "adapter",
        Grouping::Device => "device",
        Grouping::Driver => "driver",
        Grouping::Level => "run level",
    }
}

/// The text as it is shown, or the beginning of that and an ellipsis where it has more than 26 characters.
pub fn shortened(alloc: Global, text: &str) -> Result<String, AllocError> {
    cut(alloc, shown_name(alloc, text)?)
}

// The text itself, or its beginning and an ellipsis where it has more than 26 characters.
fn cut(alloc: Global, text: String) -> Result<String, AllocError> {
    if text.chars().count() <= MOST {
        return Ok(text);
    }
    let mut short = String::new(alloc);
    for letter in text.chars().take(MOST - 1) {
        short.push(letter)?;
    }
    short.push('…')?;
    Ok(short)
}
