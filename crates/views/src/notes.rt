//! After the line on a fault, what helps to find it: the file and line, the text that stands there, and for a send that was
//! refused the command whose turn it was.

pub use report_lines::report_note;
pub use trace_records::{recording_note, trace_note, unsent_note};

mod bad_record;
mod place;
mod report_lines;
mod shown;
mod trace_records;
mod turn;
