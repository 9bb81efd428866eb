//! What there is to read of a history and its audit: the text that explains where commands waited, two explanations side by
//! side, the table of a sweep, objects of JSON, and what helps to find a fault; and what there is to read of a capture in windows.
#![tactic(auto)]

pub use as_json::{
    audit_json, check_json, compare_json, explain_json, prove_json, sweep_json, what_if_json,
};
pub use capture_facts::{
    CaptureFacts, DeviceSlots, facts_line, facts_of, facts_warnings, slot_lines,
};
pub use compare::compare_page;
pub use compared::Compared;
pub use improvements::{WhatIfRow, WhatIfTable, what_if_page};
pub use limited::Limited;
pub use notes::{recording_note, report_note, trace_note, unsent_note};
pub use swept::{Swept, sweep_page};
pub use text::page;
pub use wait_causes::PairBy;
pub use watched::{Sums, TABLE_HEAD, Window, exposition, table_row, window_json};
pub use wording::{shown_lines, shown_name};

mod as_json;
mod behind;
mod capture_facts;
mod compare;
mod compared;
mod improvements;
mod limited;
mod notes;
mod pair;
mod pairing;
mod swept;
mod tables;
mod text;
mod watched;
