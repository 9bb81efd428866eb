//! The CAM statuses, SCSI statuses and sense keys that the table of results knows, by the names of FreeBSD's `cam.h` and
//! of SPC-4.

/// CAM status: the command has completed.
pub const CAM_REQ_CMP: u8 = 0x01;
/// CAM status: the adapter is busy.
pub const CAM_BUSY: u8 = 0x05;
/// CAM status: the device didn't answer its selection.
pub const CAM_SEL_TIMEOUT: u8 = 0x0a;
/// CAM status: the command took too long.
pub const CAM_CMD_TIMEOUT: u8 = 0x0b;
/// CAM status: the SCSI status says what went wrong.
pub const CAM_SCSI_STATUS_ERROR: u8 = 0x0c;
/// CAM status: the bus was reset.
pub const CAM_SCSI_BUS_RESET: u8 = 0x0e;
/// CAM status: a parity error that couldn't be corrected.
pub const CAM_UNCOR_PARITY: u8 = 0x0f;
/// CAM status: the bus was given up in the middle of the command.
pub const CAM_UNEXP_BUSFREE: u8 = 0x13;
/// CAM status: the device was reset.
pub const CAM_BDR_SENT: u8 = 0x17;
/// CAM status: the adapter gives the command back, to be sent again.
pub const CAM_REQUEUE_REQ: u8 = 0x1b;

/// SCSI status: the sense data says what went wrong.
pub const CHECK_CONDITION: u8 = 0x02;
/// SCSI status: the device is busy.
pub const BUSY: u8 = 0x08;
/// SCSI status: the device's queue is full.
pub const TASK_SET_FULL: u8 = 0x28;
