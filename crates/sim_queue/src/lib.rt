//! An adapter's choice among its devices: whose turn it is to send.
//!
//! In the manner of the send queue of FreeBSD's `cam_xpt`, with openings that come back when a round opens.
#![tactic(auto)]

pub use fault::{FreezeOverflow, ReleaseTooMany};
pub use queue::SimQueue;

mod fault;
mod queue;
mod ready;
mod row;
mod rows;
