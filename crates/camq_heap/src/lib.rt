//! A priority queue in one array, as FreeBSD's `cam_queue`, which contracts see as a sorted list.
#![tactic(auto)]

pub use camq::Camq;
pub use entry::{Entry, QueueFull};

mod camq;
mod entry;
mod find;
mod heap;
mod sift;
