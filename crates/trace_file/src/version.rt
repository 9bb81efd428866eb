//! The versions of traces.

ghost use Rattle.std.specs.Prelude.{◌≡◌};
ghost use Rattle.std.specs.List.{list_all};
ghost use Rattle.trace_file.specs.Records.{has_no_links, is_unlinked, least_version};
ghost use Rattle.trace_file.specs.Versions.{has_links, has_table, has_word, name_of};

use crate::word::TraceWord;
use cam_types::{Adapter, Config};

/// Which records a trace may have.
#[derive(Clone, Copy)]
pub(crate) enum Version {
    /// Those of a configuration with the standard weights and no link.
    One,
    /// A table of weights too.
    Two,
    /// Links too.
    Three,
}

impl Version {
    /// The least version that holds a configuration.
    pub(crate) fn least(config: &Config) -> Version
        ensures { result ≡ least_version config.now }
    {
        if !has_no_links(config) {
            Version::Three
        } else if config.has_standard_weights() {
            Version::One
        } else {
            Version::Two
        }
    }

    /// The word that a trace of this version begins with.
    pub(crate) fn name(self) -> &'static [u8]
        ensures { result.now ≡ name_of self }
    {
        match self {
            Version::One => b"camtrace1",
            Version::Two => b"camtrace2",
            Version::Three => b"camtrace3",
        }
    }

    /// Whether it has the table of weights.
    pub(crate) fn has_table(self) -> bool
        ensures { result ≡ has_table self }
    {
        match self {
            Version::One => false,
            Version::Two | Version::Three => true,
        }
    }

    /// Whether it has links.
    pub(crate) fn has_links(self) -> bool
        ensures { result ≡ has_links self }
    {
        match self {
            Version::One | Version::Two => false,
            Version::Three => true,
        }
    }

    /// Whether a record of it may have this word.
    pub(crate) fn has_word(self, word: TraceWord) -> bool
        ensures { result ≡ has_word self word }
    {
        match word {
            TraceWord::Weight => self.has_table(),
            TraceWord::Link => self.has_links(),
            _ => true,
        }
    }
}

// Whether there is no link, and so no adapter on one.
fn has_no_links(config: &Config) -> bool
    ensures { result ≡ has_no_links config.now }
{
    config.links().is_empty() && are_unlinked(config.adapters())
}

fn are_unlinked(adapters: &[Adapter]) -> bool
    ensures { result ≡ list_all is_unlinked adapters.now }
{
    adapters.iter().all(|adapter| is_unlinked(*adapter))
}

fn is_unlinked(adapter: Adapter) -> bool
    ensures { result ≡ is_unlinked adapter }
{
    adapter.link.is_none()
}
