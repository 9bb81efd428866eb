//! The text that says where the commands of a history waited, and why.

pub(crate) use columns::push_columns;
pub use layout::page;
pub(crate) use level_waits::push_level_waits;

mod blame_table;
mod columns;
mod freezes;
mod layout;
mod level_waits;
mod limits;
mod stays;
mod tables;
mod totals;
mod weights;
mod worst;
