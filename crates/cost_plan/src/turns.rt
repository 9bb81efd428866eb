//! First come, first served among stays of one device and one weight, whose rounds can be exchanged at no cost (an interchange
//! argument, as of Smith 1956): no stay waits while a later one is sent in a round that it could have had.

mod exchange;
mod free_slot;
mod giving;
mod slots;
mod windows;

pub use windows::in_turn_within;
