//! Successive shortest paths: stays are placed one after another, each on a shortest path by Dijkstra's algorithm on reduced
//! costs, with potentials that keep these at 0 or more (Edmonds and Karp 1972; Tomizawa 1971). The network has a cell for each
//! resource and round; a stay waits from round to round. The result is a guess: that it is a best plan isn't proved here.
#![tactic(auto)]

pub use guessing::guess;
pub use problem::{Guess, Problem, Stay};

mod answer;
mod buckets;
mod build;
mod groups;
mod guessing;
mod network;
mod placing;
mod problem;
mod search;
mod senders;
mod stop;
