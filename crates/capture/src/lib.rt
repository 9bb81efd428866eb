//! The recording of a capture: requests with the times of their arrivals and starts, as what some scheduler did in rounds.
#![tactic(auto)]

pub use arrival_order::in_arrival_order;
pub use capture::Capture;
pub use capture_fault::{CaptureFault, MAX_IN_ROUND};
pub use device_flight::DeviceFlight;
pub use lengths::{left_out, longest_round, shortest_round, usual_round};
pub use room::Room;
pub use shared_adapters::shared_openings;
pub use span_bounds::{short_from, short_within, span_within};
pub use span_time::{span_nanoseconds, span_of};
pub use timed_request::TimedRequest;

mod arrival_order;
mod cap_rows;
mod capture;
mod capture_fault;
mod device_flight;
mod device_rounds;
mod lengths;
mod median;
mod part_loads;
mod parts;
mod recording;
mod request_faults;
mod room;
mod round_starts;
mod rounds;
mod runs;
mod shared_adapters;
mod span_bounds;
mod span_time;
mod started;
mod tally;
mod timed_request;
