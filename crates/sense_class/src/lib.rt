//! What a result means: sense data in its fixed and its descriptor form, and the class by which a failed CCB is sent again or
//! given back, after the manner of FreeBSD's `cam_periph_error`.
#![tactic(auto)]

pub use class::{Class, Kind, Why, classify, kind_of};
pub use sense::{Sense, read_sense};
pub use status::{
    BUSY, CAM_BDR_SENT, CAM_BUSY, CAM_CMD_TIMEOUT, CAM_REQ_CMP, CAM_REQUEUE_REQ,
    CAM_SCSI_BUS_RESET, CAM_SCSI_STATUS_ERROR, CAM_SEL_TIMEOUT, CAM_UNCOR_PARITY,
    CAM_UNEXP_BUSFREE, CHECK_CONDITION, TASK_SET_FULL,
};

mod class;
mod sense;
mod status;
