//! The queue of one device: what waits, its openings in rounds, and its freezes.
//!
//! In the manner of FreeBSD's `cam_ccbq` and `cam_devq`, with openings that come back when a round opens.
#![tactic(auto)]

pub use device::DevQueue;
pub use fault::{FreezeOverflow, QueueFull, ReleaseTooMany};
pub use waiting::Waiting;

mod device;
mod enter;
mod fault;
mod waiting;
