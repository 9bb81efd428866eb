//! A plan by levels of time: planned on long blocks of rounds, refined to blocks half as long, and repaired by shortest paths.

mod answer;
mod arc;
mod balancing;
mod frontier;
mod level;
mod outline;
mod parts;
mod passing;
mod planning;
mod raising;
mod refining;
mod search;
mod search_direction;
mod settling;
mod stopped;

pub use planning::plan_by_levels;
