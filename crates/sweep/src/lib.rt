//! The runs of a script under several settings of openings, by several seeds, and what they come to.
#![tactic(auto)]

pub use all_runs::run_sweep;
pub use choices::{ChoiceFault, RefusedChoice, first_refused};
pub use plan::{PlanFault, SweepPlan};
pub use row::{Figures, Row, Spread};
pub use runner::{Numbers, Runner, SimRunner, Tally};
pub use script::changed_script;
pub use setting::{Change, Choice, Place, Setting, settings};

mod all_runs;
mod choices;
mod config;
mod plan;
mod remaining_commands;
mod row;
mod runner;
mod script;
mod setting;
mod spread;
mod tally;
