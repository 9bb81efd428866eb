//! The text that puts two explanations side by side.

pub use page::compare_page;
pub(crate) use totals::cost_of;

mod differences;
mod most;
mod page;
mod rows;
mod totals;
