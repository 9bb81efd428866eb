//! Runs of scripts: what serves a lane, how a run ends, the run on one thread by a seed, the run on many threads, and whether
//! such a run, by the logs of its actors, is one of the script.
#![tactic(auto)]

pub use ending::Ending;
pub use fault::LiveFault;
pub use judging::judge;
pub use live::{LiveRun, run_live, run_live_with};
pub use log::SeatLog;
pub use names::actors;
pub use port::Port;
pub use progress::{NoProgress, Progress};
pub use run_replay::is_held_up;
pub use script_port::ScriptPort;
pub use seeded::{SimRun, sim_run};
pub use served::Served;

mod able_actors;
mod actor;
mod driver;
mod ending;
mod endings;
mod fault;
mod handed;
mod judging;
mod keeper;
mod lane;
mod lanes;
mod live;
mod log;
mod names;
mod port;
mod progress;
mod recovery;
mod run_replay;
mod same;
mod script_port;
mod seeded;
mod served;
mod sim;
mod walk;
mod work;
mod worker;
mod workplace;
