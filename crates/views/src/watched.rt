//! Windows of a capture, one after the other: what waiting cost in each and in all of them together, by device, driver and run level,
//! as a line of a table, as JSON, and in Prometheus' text format.

pub use as_json::window_json;
pub use prometheus::exposition;
pub use sums::Sums;
pub use table::{TABLE_HEAD, table_row};
pub use window::Window;

mod as_json;
mod costs;
mod prometheus;
mod sums;
mod table;
mod window;
