//! The calls that a text lists, run by run, made on transports.

mod answer;
mod beside;
mod call;
mod doors;
mod first;
mod layers;
mod line;
mod maker;
mod opening;
mod run;

pub use beside::make_all;
pub use first::make_first;
