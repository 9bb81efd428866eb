//! What a script's record says by its fields alone.

use crate::step::Step;
use cam_path::CamPath;
use cam_types::{Flags, Outcome};

/// What a record of a script says after the configuration, by its fields alone.
#[derive(Clone, Copy)]
pub(crate) enum ScriptRow {
    Submit {
        driver: u8,
        path: CamPath,
        priority: u32,
        retries: u32,
        flags: Flags,
    },
    Freeze {
        driver: u8,
        path: CamPath,
        count: u32,
    },
    Release {
        driver: u8,
        path: CamPath,
        count: u32,
    },
    FreezeSim {
        driver: u8,
        sim: u32,
        count: u32,
    },
    ReleaseSim {
        driver: u8,
        sim: u32,
    },
    Adjust {
        driver: u8,
        path: CamPath,
        openings: u32,
    },
    Pause {
        driver: u8,
        round: u32,
    },
    Answer {
        lane: u32,
        outcome: Outcome,
    },
}

/// What a row adds to a script.
#[derive(Clone, Copy)]
pub(crate) enum ScriptItem {
    /// A step of this driver.
    Step(u8, Step),
    /// An answer of this lane.
    Answer(u32, Outcome),
}
