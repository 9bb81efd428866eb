//! Why a check, an audit or a proof ended without its output.

ghost use Rattle.std.specs.Prelude.{◌≡◌};
ghost use Rattle.audit_report.specs.Runs.{OutOfMemory};

use event_rules::Stay;
use recording_file::RecordingFault;
use report_text::ReportFault;
use std::alloc::AllocError;
use thiserror::Error;
use trace_file::TraceFault;

/// Why a run ended without its output. Nothing was written unless a variant states otherwise.
#[derive(Clone, Copy, Debug, PartialEq, Eq, Error)]
pub enum AuditFault {
    /// The input is no trace, or wasn't read.
    #[error("{0}")]
    Trace(TraceFault),
    /// The input is no recording, though it begins with the header of one.
    #[error("{0}")]
    Recording(RecordingFault),
    /// The history isn't complete: this is the first of its stays, in creation order, that has no send.
    #[error("unsent ccb {} try {}", .0.ccb, .0.attempt)]
    Unsent(Stay),
    /// The report isn't one of the net, or wasn't read.
    #[error("{0}")]
    Report(ReportFault),
    /// A write failed. A part of the text may have been written, from its start.
    #[error("write failed")]
    WriteFailed,
    /// There is no memory left.
    #[error("out of memory")]
    OutOfMemory,
}

impl From<AllocError> for AuditFault {
    ghost from_gives = { λ _ e. e ≡ OutOfMemory };

    fn from(_error: AllocError) -> AuditFault {
        AuditFault::OutOfMemory
    }
}
