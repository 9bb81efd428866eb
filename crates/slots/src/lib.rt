//! What a device could have taken: how many slots it has, how long it serves a request, and the starts that had room while others
//! waited. Times are whole nanoseconds, and spans of time are half open.
#![tactic(auto)]

pub use flight::{End, Flight, Wait};
pub use found::{ENOUGH, Slots, slots_of};
pub use numbered::{InFlight, NumberedFlight, flights_in_window};
pub use slots_fault::SlotsFault;
pub use spare::{Spare, spare_starts};
pub use tally::MOST_SPARE;
pub use window_slots::{Known, WindowSlots, slots_in_window};

mod bounds;
mod changes;
mod flight;
mod flying;
mod found;
mod levels;
mod numbered;
mod service;
mod slots_fault;
mod spans;
mod spare;
mod tally;
mod times;
mod window_slots;
