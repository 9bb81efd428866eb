//! The words of `import`, one by one.

use crate::import_fault::ImportFault;
use crate::import_fault::ImportFault::NamedArgument;
use crate::source::STANDARD_INPUT;
use crate::word_fault::WordFault;
use crate::words::{count, number_in, word_at};
use cam_types::MAX_PRIORITY;
use capture::span_nanoseconds;
use capture_file::{CsvTimeUnit as CsvUnit, DevicePick, DriverBy, Priorities, Tolerance};
use clap::ArgMatches;
use recording_file::{Span, TimeUnit};
use std::alloc::{AllocError, Global};
use std::fs;
use window_recordings::{Host, value_of};

/// An option by which names get numbers.
pub struct Numbering {
    // Its name.
    id: &'static str,
    least: u32,
    most: u32,
    // What it takes, and what is wrong if a name comes twice.
    form: WordFault,
    twice: WordFault,
}

/// The drivers with a priority of their own.
pub const DRIVER: Numbering = Numbering {
    id: "driver",
    least: 0,
    most: MAX_PRIORITY,
    form: WordFault::Driver,
    twice: WordFault::DriverTwice,
};

/// The devices that are rated at a number of openings.
pub const RATED: Numbering = Numbering {
    id: "rated",
    least: 1,
    most: 255,
    form: WordFault::Rated,
    twice: WordFault::RatedTwice,
};

/// The devices whose slots are given.
pub const DEPTH: Numbering = Numbering {
    id: "depth",
    least: 1,
    most: 65_535,
    form: WordFault::Depth,
    twice: WordFault::DepthTwice,
};

/// What kind of text the files are.
#[derive(Clone, Copy, PartialEq, Eq)]
pub enum Kind {
    Blkparse,
    Tracepoints,
    Biosnoop,
    Fio,
    Csv(CsvUnit),
}

/// Tests that standard input is at most one of the files.
pub fn check_files(words: &ArgMatches<'_>) -> Result<(), ImportFault> {
    let mut inputs = 0u32;
    for place in 0..count(words, "FILE") {
        if word_at(words, "FILE", place) == STANDARD_INPUT {
            inputs = inputs.saturating_add(1);
        }
    }
    if inputs > 1 {
        return Err(NamedArgument(WordFault::OneInput));
    }
    Ok(())
}

/// What kind of text the files are, by the words after `--from` and `--unit`. CSV has seconds if no unit is given.
pub fn kind_of(words: &ArgMatches<'_>) -> Result<Kind, ImportFault> {
    let unit = match words.get_str("unit") {
        None | Some("s") => CsvUnit::Seconds,
        Some("ms") => CsvUnit::Milliseconds,
        Some("us") => CsvUnit::Microseconds,
        Some("ns") => CsvUnit::Nanoseconds,
        Some(_) => return Err(NamedArgument(WordFault::Unit)),
    };
    match words.get_str("from") {
        Some("blkparse") => Ok(Kind::Blkparse),
        Some("tracepoints") => Ok(Kind::Tracepoints),
        Some("biosnoop") => Ok(Kind::Biosnoop),
        Some("fio") => Ok(Kind::Fio),
        Some("csv") => Ok(Kind::Csv(unit)),
        _ => Err(NamedArgument(WordFault::From)),
    }
}

/// How long a round is, if that is given.
pub fn round_of(words: &ArgMatches<'_>) -> Result<Option<Span>, ImportFault> {
    match words.get_str("round") {
        None => Ok(None),
        Some(word) => Ok(Some(span(word).ok_or(NamedArgument(WordFault::Round))?)),
    }
}

/// How long a window is, in nanoseconds, if windows are asked for.
pub fn window_of(words: &ArgMatches<'_>) -> Result<Option<u64>, ImportFault> {
    match words.get_str("window") {
        None => Ok(None),
        Some(word) => Ok(Some(span_nanoseconds(span(word).ok_or(NamedArgument(
            WordFault::Window,
        ))?))),
    }
}

/// A number and a unit.
pub fn span(word: &str) -> Option<Span> {
    let digits = word.trim_end_matches(|c: char| c.is_ascii_alphabetic());
    let unit = match word.strip_prefix(digits)? {
        "ns" => TimeUnit::Nanosecond,
        "us" => TimeUnit::Microsecond,
        "ms" => TimeUnit::Millisecond,
        "s" => TimeUnit::Second,
        _ => return None,
    };
    let count = number_in(digits)?;
    (count > 0).then_some(Span { count, unit })
}

/// Whether the lines have to be in the order of time: where windows are taken, or reading ends before the files do.
pub fn is_sorted(words: &ArgMatches<'_>) -> bool {
    let ends_early = words.get_str("window").is_some() || words.get_str("to-time").is_some();
    !words.get_flag("unsorted") && ends_early
}

/// What a driver is in text of a kind, if that is given.
pub fn driver_by(words: &ArgMatches<'_>, kind: Kind) -> Result<Option<DriverBy>, ImportFault> {
    let by = match words.get_str("driver-by") {
        None => return Ok(None),
        Some("comm") => DriverBy::Comm,
        Some("pid") => DriverBy::Pid,
        Some("cgroup") => DriverBy::Cgroup,
        Some(_) => return Err(NamedArgument(WordFault::DriverBy)),
    };
    match kind {
        Kind::Fio => Err(NamedArgument(WordFault::Jobs)),
        Kind::Csv(_) => Ok(Some(by)),
        _ if by == DriverBy::Cgroup => Err(NamedArgument(WordFault::Cgroup)),
        _ => Ok(Some(by)),
    }
}

/// Which of the lines that are refused are left out; `usual` if the words don't say.
pub fn tolerance_of(words: &ArgMatches<'_>, usual: Tolerance) -> Result<Tolerance, ImportFault> {
    match (words.get_flag("lenient"), words.get_flag("strict")) {
        (true, true) => Err(NamedArgument(WordFault::Tolerance)),
        (true, false) => Ok(Tolerance::Lenient),
        (false, true) => Ok(Tolerance::Strict),
        (false, false) => Ok(usual),
    }
}

/// Where priorities come from.
pub fn priorities_of(words: &ArgMatches<'_>) -> Result<Priorities, ImportFault> {
    match words.get_str("priority") {
        None | Some("by-class") => Ok(Priorities::Class),
        Some("by-direction") => Ok(Priorities::Direction),
        Some("flat") => Ok(Priorities::Flat),
        Some(_) => Err(NamedArgument(WordFault::Priority)),
    }
}

/// The names that the option gives numbers to, with these.
pub fn numbers_of(
    alloc: Global,
    words: &ArgMatches<'_>,
    option: &Numbering,
) -> Result<Vec<(String, u32)>, ImportFault> {
    let mut numbers = Vec::new(alloc);
    for place in 0..count(words, option.id) {
        let word = word_at(words, option.id, place);
        let (name, number) = option.read(word).ok_or(NamedArgument(option.form))?;
        if value_of(&numbers, name).is_some() {
            return Err(NamedArgument(option.twice));
        }
        numbers.push((String::from_str(alloc, name)?, number))?;
    }
    Ok(numbers)
}

impl Numbering {
    // A name and a number in its range, with an equals sign between them.
    fn read<'a>(&self, word: &'a str) -> Option<(&'a str, u32)> {
        let (name, number) = word.rsplit_once('=')?;
        let number = number_in(number)?;
        (self.least <= number && number <= self.most).then_some((name, number))
    }
}

/// The devices that are taken: with an equals sign those that match a pattern, as one device; else one by its name, by its numbers, or by
/// the name that this system has for it, also after `/dev/`.
pub fn picks_of(rt: &HostRuntime, words: &ArgMatches<'_>) -> Result<Vec<DevicePick>, ImportFault> {
    let alloc = rt.alloc();
    let mut picks = Vec::new(alloc);
    for place in 0..count(words, "device") {
        let word = word_at(words, "device", place);
        match word.rsplit_once('=') {
            None => push_named(rt, &mut picks, word)?,
            Some((_, "")) => return Err(NamedArgument(WordFault::Pick)),
            Some((pattern, name)) => picks.push(DevicePick::Pattern {
                pattern: String::from_str(alloc, pattern)?,
                name: String::from_str(alloc, name)?,
            })?,
        }
    }
    Ok(picks)
}

// One device: by the numbers that this system has for its name, as which it is listed then, or as the word names it.
fn push_named(rt: &HostRuntime, picks: &mut Vec<DevicePick>, word: &str) -> Result<(), AllocError> {
    let alloc = rt.alloc();
    let name = word.strip_prefix("/dev/").unwrap_or(word);
    if let Some(pattern) = numbers_in_system(rt, name)? {
        let name = String::from_str(alloc, name)?;
        picks.push(DevicePick::Pattern { pattern, name })?;
    }
    picks.push(DevicePick::Name(String::from_str(alloc, name)?))?;
    Ok(())
}

// The major and minor number that this system has for a block device, as `8:0`, if it has one of this name.
fn numbers_in_system(rt: &HostRuntime, name: &str) -> Result<Option<String>, AllocError> {
    if name.is_empty() || name.contains('/') || name.starts_with('.') {
        return Ok(None);
    }
    let path = format!(in rt.alloc(); "/sys/class/block/{name}/dev")?;
    let Ok(text) = fs::read_to_string(rt, &path) else {
        return Ok(None);
    };
    Ok(Some(String::from_str(rt.alloc(), text.trim())?))
}

/// The devices whose adapters are given. A device has one adapter, and an adapter one number of openings.
pub fn hosts_of(alloc: Global, words: &ArgMatches<'_>) -> Result<Vec<(String, Host)>, ImportFault> {
    let mut hosts = Vec::new(alloc);
    for place in 0..count(words, "host") {
        let word = word_at(words, "host", place);
        let (name, host) = host_in(word).ok_or(NamedArgument(WordFault::Host))?;
        if value_of(&hosts, name).is_some() {
            return Err(NamedArgument(WordFault::HostTwice));
        }
        if contradicts(&hosts, host) {
            return Err(NamedArgument(WordFault::Adapter));
        }
        hosts.push((String::from_str(alloc, name)?, host))?;
    }
    Ok(hosts)
}

// Whether the adapter was given another number of openings.
fn contradicts(hosts: &[(String, Host)], host: Host) -> bool {
    hosts.iter().any(|other| other.1.adapter == host.adapter && other.1.openings != host.openings)
}

// A device with its adapter and that one's openings.
fn host_in(word: &str) -> Option<(&str, Host)> {
    let (name, rest) = word.rsplit_once('=')?;
    let (adapter, openings) = rest.split_once(':')?;
    let (adapter, openings) = (number_in(adapter)?, number_in(openings)?);
    (adapter < 8 && openings > 0 && openings < 256).then_some((name, Host { adapter, openings }))
}

/// A time in seconds, which may have a fraction, in nanoseconds.
pub fn time_of(words: &ArgMatches<'_>, id: &str) -> Result<Option<u64>, ImportFault> {
    match words.get_str(id) {
        None => Ok(None),
        Some(word) => match capture_file::time_of(word.as_bytes(), CsvUnit::Seconds.nanoseconds()) {
            Some(time) => Ok(Some(time)),
            None => Err(NamedArgument(WordFault::Time)),
        },
    }
}
