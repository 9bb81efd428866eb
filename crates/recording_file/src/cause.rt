//! Why a request can't be one of a recording.

use std::fmt;
use thiserror::Error;

/// Why a request can't be one of a recording, beside the requests before it. The first that holds is named.
#[derive(Clone, Copy, Debug, PartialEq, Eq, Error)]
pub enum RequestFault {
    /// There is no device of its number.
    NoDevice,
    /// Its priority is above 1279.
    BadPriority,
    /// It isn't so that 1 <= arrival <= last <= the last round.
    BadWindow,
    /// It was started before it arrived.
    Early,
    /// It was started after its last round.
    Late,
    /// Its device already took as many in that round as its cap.
    DeviceFull,
    /// Its device's adapter did.
    AdapterFull,
    /// Its adapter's link did.
    LinkFull,
}

impl fmt::Display for RequestFault {
    fn fmt<W: fmt::Write>(&self, f: &mut fmt::Formatter<W>) -> fmt::Result {
        f.write_str(match self {
            RequestFault::NoDevice => "NoDevice",
            RequestFault::BadPriority => "BadPriority",
            RequestFault::BadWindow => "BadWindow",
            RequestFault::Early => "Early",
            RequestFault::Late => "Late",
            RequestFault::DeviceFull => "DeviceFull",
            RequestFault::AdapterFull => "AdapterFull",
            RequestFault::LinkFull => "LinkFull",
        })
    }
}
