//! The transport on one thread and what it answers: what is sent, why nothing is, what a completion comes to, and what
//! there is to see.
#![tactic(auto)]

pub use done::Done;
pub use idle::Idle;
pub use laws::{
    idle_where_there_is_no_head, lane_is_refused_as_its_sends, legal_sends_are_made,
    next_is_unrefused, only_the_next_is_sent,
};
pub use look::{Case, Look};
pub use reply::{Reply, Sent};
pub use xpt::Xpt;

mod answers;
mod command;
mod done;
mod idle;
mod laws;
mod look;
mod questions;
mod refusals;
mod reply;
mod xpt;
