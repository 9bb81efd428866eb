//! Histories: the events of one configuration, each legal at its place, with what an audit asks of them.
#![tactic(auto)]

pub use event_rules::{Event, Refusal, Stay};
pub use history::{History, PushFault};

mod history;
