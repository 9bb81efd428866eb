//! Texts of rows as CSV has them: how a row is parsed and spelled, what one row after the other makes of a parser's state, and
//! the front of a text that says as much as all of it. Traces, scripts and recordings share the rows of a configuration.
#![tactic(auto)]

pub use applying::take_records;
pub use config_parser::ConfigParser;
pub use config_row::ConfigRow;
pub use config_rows::{adapter_at, device_at, one_number, two_numbers, weight_at};
pub use config_writer::{write_adapters, write_devices, write_links, write_weights};
pub use device_row::DeviceRow;
pub use fields::{below_at, field, is_text, number_at, optional_at, unused_from, within_at};
pub use header::is_header;
pub use parser::Parser;
pub use row_writer::{write_one, write_row, write_three, write_two, write_word};
pub use text_front::front;
pub use write_fault::WriteFault;

mod applying;
mod config_parser;
mod config_row;
mod config_rows;
mod config_writer;
mod device_row;
mod effect;
mod fields;
mod header;
mod parser;
mod place;
mod row_writer;
mod text_front;
mod write_fault;
