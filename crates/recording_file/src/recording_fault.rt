//! Why a text isn't a recording.

use crate::cause::RequestFault;
use cam_types::ConfigFault;
use std::fmt;
use thiserror::Error;

/// Why a text isn't a recording. Records are numbered from 1 and so are the fields of a record.
#[derive(Clone, Copy, Debug, PartialEq, Eq, Error)]
pub enum RecordingFault {
    /// The first record isn't the header, or there is none.
    BadHeader,
    /// The record hasn't eight fields, or its word isn't known or stands out of its place; or the row of rounds is due and
    /// isn't there.
    BadRecord(u32),
    /// The field hasn't its form. The first number is the record's, the second the field's.
    BadField(u32, u32),
    /// The record breaks a rule of the configuration.
    BadConfig(u32, ConfigFault),
    /// The record's request can't be one of the recording.
    Illegal(u32, RequestFault),
    /// More bytes came than a recording may have: 268,435,456 if the first ten are `camrecord1` or `camrecord2`, else
    /// 16,777,216.
    TooLong,
    /// A read failed.
    ReadFailed,
    /// There is no memory left.
    OutOfMemory,
}

impl fmt::Display for RecordingFault {
    fn fmt<W: fmt::Write>(&self, f: &mut fmt::Formatter<W>) -> fmt::Result {
        match self {
            RecordingFault::BadHeader => f.write_str("bad header"),
            RecordingFault::BadRecord(record) => write!(f, "record {record}: bad record"),
            RecordingFault::BadField(record, field) => {
                write!(f, "record {record}: bad field {field}")
            }
            RecordingFault::BadConfig(record, fault) => write!(
                f,
                "record {record}: config {fault}"
            ),
            RecordingFault::Illegal(record, cause) => write!(f, "record {record}: illegal {cause}"),
            RecordingFault::TooLong => f.write_str("too long"),
            RecordingFault::ReadFailed => f.write_str("read failed"),
            RecordingFault::OutOfMemory => f.write_str("out of memory"),
        }
    }
}
