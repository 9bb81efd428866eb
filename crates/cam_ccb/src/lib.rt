//! CCBs in slots, each under a handle that finds its own entry or nothing.
#![tactic(auto)]

pub use handle::Handle;
pub use table::{CcbFull, CcbTable, StaleCcb};

mod handle;
mod table;
