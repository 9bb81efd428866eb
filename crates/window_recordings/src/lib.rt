//! Windows of a capture as recordings: how long a round is, where windows begin, and the recording of what was started in each. A
//! recording cut into windows: what was started in the rounds up to one, and what was started after it.
#![tactic(auto)]

pub use carrying::carried;
pub use cut_fault::CutFault;
pub use cut_window::{Cut, CutWindow, Ending};
pub use cutter::Cutter;
pub use cutting::{TwoWindows, cut};
pub use laws::{
    excess_is_at_least_that_of_many, excess_is_at_least_that_of_windows, nothing_is_lost,
    nothing_is_lost_in_many, one_after_other_is_admissible,
};
pub use layout::{Host, Layout, value_of};
pub use names::Names;
pub use recording::record;
pub use window::{first_window, second_window};

mod adding;
mod carrying;
mod cut_fault;
mod cut_window;
mod cutter;
mod cutting;
mod first_round;
mod laws;
mod layout;
mod moved;
mod names;
mod numbers;
mod parts;
mod recording;
mod window;
