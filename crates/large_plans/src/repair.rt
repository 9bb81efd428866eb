//! A plan by repair of the order by weight.

mod arc;
mod budget;
mod direction;
mod ends;
mod frontier;
mod giving;
mod live_stays;
mod lone_stays;
mod mending;
mod path;
mod planning;
mod pricing;
mod queues;
mod reach;
mod search;
mod sending;
mod settling;
mod time_net;
mod windows;

pub use budget::Budget;
pub use planning::plan_by_repair;
