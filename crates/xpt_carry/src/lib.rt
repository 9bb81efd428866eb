//! A transport carried over to a fresh one: what waits in its queues, its freezes and its openings, at a round's end.
#![tactic(auto)]

pub use carried::{Carried, carry};
pub use fault::CarryFault;
pub use laws::{
    adapters_freezes_are_kept, callers_freezes_are_kept, ccbs_are_kept, few_events_are_carried,
    freezes_are_kept, no_error_freezes, openings_are_kept, queues_are_kept, room_is_enough,
};

mod carried;
mod events;
mod fault;
mod laws;
mod order;
mod settled;
mod submits;
mod taking;
