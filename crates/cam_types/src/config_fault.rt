//! The rules that a configuration may break.

use std::fmt;
use thiserror::Error;

/// The rule that a configuration breaks.
#[derive(Clone, Copy, Debug, PartialEq, Eq, Error)]
pub enum ConfigFault {
    /// There is no adapter.
    NoAdapters,
    /// There are 4 links, 8 adapters, 32 devices or 4 lanes of the adapter before it.
    TooMany,
    /// The openings are 0 or more than 255.
    BadOpenings,
    /// It names an adapter that isn't there.
    NoAdapter,
    /// The logical unit is above 16,383.
    BadAddress,
    /// A device before it has the same bus, target and logical unit.
    DoubleDevice,
    /// A row of the table of weights breaks a rule, or no row reaches priority 1279.
    BadWeight,
    /// An adapter names a link that isn't there.
    NoLink,
}

impl fmt::Display for ConfigFault {
    fn fmt<W: fmt::Write>(&self, f: &mut fmt::Formatter<W>) -> fmt::Result {
        f.write_str(match self {
            ConfigFault::NoAdapters => "NoAdapters",
            ConfigFault::TooMany => "TooMany",
            ConfigFault::BadOpenings => "BadOpenings",
            ConfigFault::NoAdapter => "NoAdapter",
            ConfigFault::BadAddress => "BadAddress",
            ConfigFault::DoubleDevice => "DoubleDevice",
            ConfigFault::BadWeight => "BadWeight",
            ConfigFault::NoLink => "NoLink",
        })
    }
}
