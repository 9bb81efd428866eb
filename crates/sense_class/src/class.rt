//! The table of results: whether a CCB has completed, is sent again, or has failed.

ghost use Rattle.std.specs.Prelude.{◌≡◌};
ghost use Rattle.sense_class.specs.Classes.{sense_kind, scsi_kind, kind_of, class_of, classify, asks_requeue, asks_finish, is_counted};

use crate::sense::{Sense, read_sense};
use crate::status::{
    BUSY, CAM_BDR_SENT, CAM_BUSY, CAM_CMD_TIMEOUT, CAM_REQ_CMP, CAM_REQUEUE_REQ,
    CAM_SCSI_BUS_RESET, CAM_SCSI_STATUS_ERROR, CAM_SEL_TIMEOUT, CAM_UNCOR_PARITY,
    CAM_UNEXP_BUSFREE, CHECK_CONDITION, TASK_SET_FULL,
};
use cam_types::Outcome;

/// What a result asks for, after the manner of FreeBSD's `cam_periph_error`.
#[derive(Clone, Copy, Debug, PartialEq, Eq)]
pub enum Class {
    /// The CCB has completed.
    Complete,
    /// The CCB is to be sent again, which doesn't count as a retry.
    FreeRequeue,
    /// The CCB is to be sent again, which counts as a retry.
    CountedRequeue,
    /// The CCB has failed.
    Fail(Why),
}

/// Why a CCB has failed.
#[derive(Clone, Copy, Debug, PartialEq, Eq)]
pub enum Why {
    /// The command succeeded by a recovery of the device's own.
    Recovered,
    /// The CCB has no retry left.
    Spent,
    /// No retry would help.
    Other,
}

/// What the table of results says of one, before the CCB's retries are looked at.
#[derive(Clone, Copy, Debug, PartialEq, Eq)]
pub enum Kind {
    Good,
    Free,
    Counted,
    Recovered,
    Other,
}

/// The class of a result of a CCB with that many retries, after that many counted requeues. Status 00, in progress, is no
/// result; here it falls under what fails for another reason.
pub fn classify(outcome: &Outcome, counted: u32, retries: u32) -> Class
    ensures { result ≡ classify outcome.now counted retries }
{
    match kind_of(outcome) {
        Kind::Good => Class::Complete,
        Kind::Free => Class::FreeRequeue,
        Kind::Counted if counted == retries => Class::Fail(Why::Spent),
        Kind::Counted => Class::CountedRequeue,
        Kind::Recovered => Class::Fail(Why::Recovered),
        Kind::Other => Class::Fail(Why::Other),
    }
}

/// The result's row in the table: its CAM status, for a SCSI status error the SCSI status, and for a check condition
/// the sense.
#[tactic(auto, unfolding(crate::specs::Classes::kind_of))]
pub fn kind_of(outcome: &Outcome) -> Kind
    ensures { result ≡ kind_of outcome.now }
{
    match outcome.status & 0x3f {
        CAM_REQ_CMP => Kind::Good,
        CAM_REQUEUE_REQ => Kind::Free,
        CAM_BUSY
        | CAM_SEL_TIMEOUT
        | CAM_CMD_TIMEOUT
        | CAM_SCSI_BUS_RESET
        | CAM_UNCOR_PARITY
        | CAM_UNEXP_BUSFREE
        | CAM_BDR_SENT => Kind::Counted,
        CAM_SCSI_STATUS_ERROR => scsi_kind(outcome),
        _ => Kind::Other,
    }
}

#[tactic(auto, unfolding(crate::specs::Classes::scsi_kind))]
fn scsi_kind(outcome: &Outcome) -> Kind
    ensures { result ≡ scsi_kind outcome.now }
{
    match outcome.scsi {
        TASK_SET_FULL => Kind::Free,
        BUSY => Kind::Counted,
        CHECK_CONDITION => sense_kind(read_sense(outcome.sense.bytes())),
        _ => Kind::Other,
    }
}

#[tactic(auto, unfolding(crate::specs::Classes::sense_kind))]
fn sense_kind(sense: Option<Sense>) -> Kind
    ensures { result ≡ sense_kind sense }
{
    let Some(sense) = sense else {
        return Kind::Counted;
    };
    if sense.deferred {
        return Kind::Counted;
    }
    match sense.key {
        2 | 3 | 4 | 6 | 11 => Kind::Counted,
        0 | 1 => Kind::Recovered,
        _ => Kind::Other,
    }
}

impl Class {
    /// Whether the CCB is to be sent again.
    pub fn asks_requeue(self) -> bool
        ensures { result ≡ asks_requeue self }
    {
        matches!(self, Class::FreeRequeue | Class::CountedRequeue)
    }

    /// Whether the CCB has failed.
    pub fn asks_finish(self) -> bool
        ensures { result ≡ asks_finish self }
    {
        matches!(self, Class::Fail(_))
    }
}

impl Kind {
    /// Whether a requeue of such a result counts as a retry.
    pub fn is_counted(self) -> bool
        ensures { result ≡ is_counted self }
    {
        self == Kind::Counted
    }
}
