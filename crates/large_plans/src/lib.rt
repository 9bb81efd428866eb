//! Guesses at a minimum cost flow over rounds, for many requests. By repair: requests are sent by their weight, and walking back over
//! the rounds, each round gets its least prices, and what isn't sent best at these is sent anew along shortest paths (successive
//! shortest paths, Busacker and Gowen 1960). By levels of time: cost scaling (Goldberg and Tarjan 1990) where each scale also halves
//! the blocks of rounds. That a guess is a best plan isn't proved here.
#![tactic(auto)]

pub use guess::Guess;
pub use levels::plan_by_levels;
pub use network::{MAX_WEIGHT, Network, NetworkStay};
pub use progress::{Done, NoProgress, Progress};
pub use repair::{Budget, plan_by_repair};

mod caps;
mod columns;
mod guess;
mod layout;
mod levels;
mod network;
mod prices;
mod progress;
mod repair;
