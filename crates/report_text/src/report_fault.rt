//! Why a text isn't a report on a net.

ghost use Rattle.std.specs.Prelude.{◌≡◌};
ghost use Rattle.report_text.specs.declared.report_fault.ReportFault.TheVariants.{OutOfMemory};

use std::alloc::{AllocError, AllocFailed};
use thiserror::Error;

/// Why a text isn't a report on the net. Lines are numbered from 1.
#[derive(Clone, Copy, Debug, PartialEq, Eq, Error)]
pub enum ReportFault {
    /// The line isn't the one due or not of its form, or it is missing.
    #[error("report line {0}: bad line")]
    BadLine(u32),
    /// A line that is otherwise right has a price above the net's largest: 1,000,000,000,000 of a history's net, and
    /// 1,000,000,000,000,000 of a recording's.
    #[error("report line {0}: price range")]
    PriceRange(u32),
    /// A stay's line says another name, arrival, live round or weight than the net.
    #[error("report line {0}: wrong stay")]
    WrongStays(u32),
    /// More bytes came than a report on the net may have: 16,777,216 of a history's net, and 268,435,456 of a recording's.
    #[error("too long")]
    TooLong,
    /// A read failed.
    #[error("read failed")]
    ReadFailed,
    /// There is no memory left.
    #[error("out of memory")]
    OutOfMemory,
}

impl From<AllocError> for ReportFault {
    ghost from_gives = { λ _ e. e ≡ OutOfMemory };

    fn from(_error: AllocError) -> ReportFault {
        ReportFault::OutOfMemory
    }
}

impl<T: Drop> From<AllocFailed<T>> for ReportFault {
    ghost from_gives = { λ _ e. e ≡ OutOfMemory };

    fn from(_error: AllocFailed<T>) -> ReportFault {
        ReportFault::OutOfMemory
    }
}
