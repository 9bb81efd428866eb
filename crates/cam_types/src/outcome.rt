//! The result of a command: CAM status, SCSI status and sense data.

ghost use Rattle.std.specs.Prelude.{◌≡◌, []};

use crate::sense_bytes::SenseBytes;

/// What an adapter says of a command that it has served.
#[derive(Clone, Copy, Debug, PartialEq, Eq)]
pub struct Outcome {
    /// The CAM status in its lower six bits, and flags above them, which are kept and not read.
    pub status: u8,
    /// The SCSI status.
    pub scsi: u8,
    /// The sense data.
    pub sense: SenseBytes,
}

impl Outcome {
    /// A result that is a CAM status alone, with SCSI status 0 and no sense data.
    pub fn of_status(status: u8) -> Outcome
        ensures { result ≡ record { status = status; scsi = 0; sense = [] } }
    {
        Outcome {
            status,
            scsi: 0,
            sense: SenseBytes::first(&[]),
        }
    }
}
