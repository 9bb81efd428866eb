//! What the words of `import` ask for.

use crate::import_fault::ImportFault;
use crate::import_words::{
    DEPTH, DRIVER, Kind, RATED, check_files, driver_by, hosts_of, is_sorted, kind_of, numbers_of,
    picks_of, priorities_of, round_of, time_of,
};
use capture_file::Options;
use clap::ArgMatches;
use recording_file::Span;
use window_recordings::Layout;

/// What the words of `import` ask for.
#[derive(Drop)]
pub struct ImportOptions {
    /// What kind of text the files are.
    pub kind: Kind,
    /// How long a round is, if that is given.
    pub round: Option<Span>,
    /// Which requests are taken, and with which priorities.
    pub taken: Options,
    /// What is given of devices.
    pub layout: Layout,
}

impl ImportOptions {
    /// What the words ask for. All of them are tested before a file is opened.
    ///
    /// # Errors
    ///
    /// `NamedArgument` of a word that hasn't its form, or that contradicts an earlier one; `OutOfMemory`.
    pub fn of(rt: &HostRuntime, words: &ArgMatches<'_>) -> Result<ImportOptions, ImportFault> {
        let alloc = rt.alloc();
        check_files(words)?;
        let kind = kind_of(words)?;
        Ok(ImportOptions {
            kind,
            round: round_of(words)?,
            taken: Options {
                priorities: priorities_of(words)?,
                driver_by: driver_by(words, kind)?,
                drivers: numbers_of(alloc, words, &DRIVER)?,
                devices: picks_of(rt, words)?,
                from_time: time_of(words, "from-time")?,
                to_time: time_of(words, "to-time")?,
                is_sorted: is_sorted(words),
            },
            layout: Layout {
                hosts: hosts_of(alloc, words)?,
                ratings: numbers_of(alloc, words, &RATED)?,
                depths: numbers_of(alloc, words, &DEPTH)?,
            },
        })
    }
}
