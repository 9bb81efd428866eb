//! Traces and scripts as text: what is read is spelled so, and what is spelled so is read; and both are written.
#![tactic(auto)]

pub use event_number::event_record;
pub use reading::{one_history, parse_trace, read_trace};
pub use record_text::WriteFault;
pub use script::{DRIVERS, Script};
pub use script_parser::MAX_ROWS;
pub use script_reading::{read_script, rows_in_order};
pub use script_text::write_script;
pub use step::Step;
pub use trace_fault::TraceFault;
pub use trace_text::{migrate_trace, trace_bytes, write_trace};

mod event_number;
mod fields;
mod hex;
mod parser_items;
mod reading;
mod rows;
mod script;
mod script_item;
mod script_parser;
mod script_reading;
mod script_row;
mod script_rows;
mod script_rules;
mod script_text;
mod script_version;
mod script_word;
mod script_writing;
mod step;
mod trace_fault;
mod trace_parser;
mod trace_text;
mod version;
mod word;
mod writing;
