//! Why a text isn't a trace or a script.

use cam_types::ConfigFault;
use event_rules::Refusal;
use std::fmt;
use thiserror::Error;

/// Why a text isn't a trace, or a script. Records are numbered from 1 and so are the fields of a record.
#[derive(Clone, Copy, Debug, PartialEq, Eq, Error)]
pub enum TraceFault {
    /// The first record isn't the header, or there is none.
    BadHeader,
    /// The record hasn't eight fields, or its word isn't known or stands out of its place.
    BadRecord(u32),
    /// The field hasn't its form. The first number is the record's, the second the field's.
    BadField(u32, u32),
    /// The record breaks a rule of the configuration.
    BadConfig(u32, ConfigFault),
    /// The record's event is refused.
    Illegal(u32, Refusal),
    /// More than 16,777,216 bytes came.
    TooLong,
    /// A read failed.
    ReadFailed,
    /// There is no memory left.
    OutOfMemory,
}

impl fmt::Display for TraceFault {
    fn fmt<W: fmt::Write>(&self, f: &mut fmt::Formatter<W>) -> fmt::Result {
        match self {
            TraceFault::BadHeader => f.write_str("bad header"),
            TraceFault::BadRecord(record) => write!(f, "record {record}: bad record"),
            TraceFault::BadField(record, field) => write!(f, "record {record}: bad field {field}"),
            TraceFault::BadConfig(record, fault) => write!(f, "record {record}: config {fault}"),
            TraceFault::Illegal(record, cause) => write!(f, "record {record}: illegal {cause}"),
            TraceFault::TooLong => f.write_str("too long"),
            TraceFault::ReadFailed => f.write_str("read failed"),
            TraceFault::OutOfMemory => f.write_str("out of memory"),
        }
    }
}
