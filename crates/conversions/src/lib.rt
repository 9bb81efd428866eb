//! Recordings made of histories, and scripts made of histories and of recordings.
#![tactic(auto)]

pub use fault::ScriptFault;
pub use history_script::{Scripted, script_of};
pub use laws::{
    answers_are_those_served, plain_is_exact, requests_are_in_their_rounds, submits_are_in_order,
    submits_are_in_their_rounds,
};
pub use recording::recording_of;
pub use recording_script::script_of_recording;
pub use rescheduling::rescheduled;

mod answers;
mod arrival;
mod arrivals_script;
mod bare_config;
mod drivers;
mod fault;
mod greatest;
mod history_script;
mod laws;
mod omitted;
mod openings;
mod parts;
mod recording;
mod recording_script;
mod requested;
mod rescheduling;
mod resource_caps;
mod runs;
mod stay_requests;
mod submissions;
