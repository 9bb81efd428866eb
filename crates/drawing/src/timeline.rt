//! The timeline of an input, as JSON in Chrome's trace-event format.

pub use document::timeline_json;

mod counters;
mod document;
mod freezes;
mod requests;
mod writer;
