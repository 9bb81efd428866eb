//! The structs that cross, field for field as in the header.

ghost use Rattle.std.specs.Prelude.{◌≡◌};
ghost use Rattle.camxpt_c.specs.Shapes.{command_of, IsDone, IsCase};

use crate::codes::class_code;
use cam_types::Command;
use xpt_state::{Case, Done};

/// How far the transport goes.
#[repr(C)]
#[derive(Clone, Copy)]
pub struct CamxptLimits {
    pub ccbs: u32,
    pub rounds: u32,
    pub stays: u32,
    pub events: u32,
}

/// A device of the configuration.
#[repr(C)]
#[derive(Clone, Copy)]
pub struct CamxptDevice {
    pub bus: u8,
    pub target: u16,
    pub lun: u16,
    pub openings: u32,
}

/// An adapter of the configuration: its openings, and the number of its link, or `NO_LINK`.
#[repr(C)]
#[derive(Clone, Copy)]
pub struct CamxptAdapter {
    pub openings: u32,
    pub link: u32,
}

/// A row of the table of weights.
#[repr(C)]
#[derive(Clone, Copy)]
pub struct CamxptWeight {
    pub last: u32,
    pub weight: u32,
}

/// A command that a lane sends, and the pointer of its CCB.
#[repr(C)]
#[derive(Clone, Copy)]
pub struct CamxptCommand {
    pub ccb: u32,
    pub attempt: u32,
    pub device: u32,
    pub priority: u32,
    pub driver: u8,
    pub user: u64,
}

/// What a completion comes to: the number of its class, the status to hand up, and the pointer of its CCB.
#[repr(C)]
#[derive(Clone, Copy)]
pub struct CamxptDone {
    pub class: u32,
    pub value: u8,
    pub user: u64,
}

/// A CCB that waits for a decision, the number of the class of its last result, and its pointer.
#[repr(C)]
#[derive(Clone, Copy)]
pub struct CamxptCase {
    pub ccb: u32,
    pub class: u32,
    pub user: u64,
}

/// What there is to see, in counts.
#[repr(C)]
#[derive(Clone, Copy)]
pub struct CamxptLook {
    pub length: u32,
    pub round: u32,
    pub in_flight: u32,
    pub cases: u32,
    pub waiting: u32,
    pub stays: u32,
    pub alive: u32,
    pub heads: usize,
}

/// What there is to see of a device, in counts.
#[repr(C)]
#[derive(Clone, Copy)]
pub struct CamxptDeviceCounts {
    pub queued: u32,
    pub requeued: u32,
    pub in_flight: u32,
    pub openings: u32,
    pub next_openings: u32,
    pub callers: u32,
    pub errors: u32,
}

pub(crate) fn command_shape(command: Command, user: u64) -> CamxptCommand
    ensures command { command_of result ≡ command }
    ensures user { result.user ≡ user }
{
    CamxptCommand {
        ccb: command.ccb,
        attempt: command.attempt,
        device: command.device,
        priority: command.priority,
        driver: command.driver,
        user,
    }
}

pub(crate) fn done_shape(done: Done, user: u64) -> CamxptDone
    ensures { IsDone done user result }
{
    CamxptDone {
        class: class_code(done.class),
        value: done.value,
        user,
    }
}

pub(crate) fn case_shape(case: Case, user: u64) -> CamxptCase
    ensures { IsCase case user result }
{
    CamxptCase {
        ccb: case.ccb,
        class: class_code(case.class),
        user,
    }
}
