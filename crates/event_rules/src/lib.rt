//! Events, and by which rules one is legal: of each place in a list of events its rounds, counts, stays, queues, heads and the
//! live schedule.
#![tactic(auto)]

pub use count::is_count;
pub use event::Event;
pub use laws::{
    each_is_legal, legal_is_unrefused, legal_is_within, narrower_is_legal, requeues_count_by_class,
    sends_stand_free, stays_are_in_range,
};
pub use passage::Passage;
pub use refusal::Refusal;
pub use rules::Rules;
pub use sending::Sending;
pub use stay::Stay;
pub use submission::Submission;

mod count;
mod event;
mod laws;
mod passage;
mod refusal;
mod rules;
mod sending;
mod stay;
mod submission;
