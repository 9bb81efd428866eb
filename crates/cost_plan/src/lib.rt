//! A schedule of least cost for a net, with prices that prove it: a minimum cost flow. The order by weight is the first
//! guess; if its prices don't prove it, guesses by repair of that order and by levels of time follow, or one by successive shortest
//! paths, which is improved by cancelling negative cycles (Klein 1967), whose potentials give the prices (linear duality).
#![tactic(auto)]

pub use best_plan::{BestPlan, guessed_plan, guessed_plan_with, plan, plan_with};
pub use large_plans::Done;
pub use plan_progress::{NoPlanProgress, PlanProgress};

mod arcs;
mod begin;
mod best_plan;
mod busy_spans;
mod by_weight;
mod cells;
mod keep_live;
mod keeping;
mod large_nets;
mod lists;
mod one_kind;
mod part;
mod part_name;
mod parts;
mod plan_progress;
mod pricing;
mod problem;
mod relax;
mod search;
mod take_turns;
mod turn_order;
mod turns;
mod units;
mod working_schedule;
