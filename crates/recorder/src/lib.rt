//! A recorder: notes of requests that a driver takes while they arrive, start and are done, in memory that is taken once, and the
//! recordings of windows that are made of them, one after the other. Times are nanoseconds of one clock.
#![tactic(auto)]

pub use note_fault::NoteFault;
pub use notes::{Notes, SLACK};
pub use recorder::{MAX_DEVICES, MAX_DRIVERS, Recorder};

mod ids;
mod note_fault;
mod notes;
mod recorder;
mod staying;
