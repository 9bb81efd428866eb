//! The working state of a transport: device and adapter queues, CCBs and stays beside each other, kept by the events so far;
//! why an event is refused, and what a legal one makes of each part.
#![tactic(auto)]

pub use ccbs::ccb::Ccb;
pub use ccbs::{
    asked_decisions_are_taken, decisions_end_cases, failures_are_classed, first_case_failed_first,
    first_case_recovers,
};
pub use devices::Devices;
pub use queues::Queues;
pub use queues::next::Next;
pub use state::State;
pub use stays::stay_record::StayRecord;

mod ccbs;
mod devices;
mod queues;
mod refusals;
mod state;
mod stays;
