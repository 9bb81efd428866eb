//! A long capture in windows, one after the other: what was started in a window is taken out of the attempts that are known, and
//! those that concern later windows go on. Times are whole nanoseconds, and spans of time are half open.
#![tactic(auto)]

pub use attempt::Attempt;
pub use device_window::WindowRoom;
pub use going_on::goes_on;
pub use laws::{
    each_start_is_in_one_of_many_windows, each_start_is_in_one_window, no_slot_comes_free_at_a_cut,
    no_wait_is_lost_at_a_cut, what_is_kept_is_new,
};
pub use time_span::{Rounds, TimeSpan};
pub use window::{KnownDevice, Taken, take_window};
pub use window_fault::WindowFault;
pub use windows::{MAX_WINDOW_ROUNDS, Window, Windows};

mod attempt;
mod by_device;
mod device_flights;
mod device_window;
mod going_on;
mod laws;
mod requests;
mod spare_in_window;
mod time_span;
mod window;
mod window_fault;
mod windows;
