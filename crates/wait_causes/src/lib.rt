//! Why each command waited: the rounds that the stays of a history or a recording waited, each with its cause, beside the
//! rounds in which another schedule sends them; and who was in the way. And two such explanations side by side: what the waiting
//! cost before a change and after it.
#![tactic(auto)]

pub use behind::{Behind, FullBehind};
pub use blame::{BlameRow, blame_adds_up, blame_of};
pub use cause_runs::{CauseRuns, DeviceRuns};
pub use differences::Differences;
pub use explained_stay::{CauseRounds, ExplainedStay};
pub use explanation::Explanation;
pub use first_waits::FirstWaits;
pub use freeze::Freeze;
pub use keys::{PairBy, has_names, has_namesakes, kind_of, names_for};
pub use kind::InputKind;
pub use known::Known;
pub use latency::{Latency, MAX_LATENCY};
pub use laws::{behind_adds_up, freezes_add_up, pairs_add_up, rows_add_up, rows_pair_once};
pub use limit::{LatencyLimit, LimitCounts, StayChoice};
pub use pairs::{PairedRow, most_changed, paired};
pub use part::{BehindCosts, CauseCosts, Part};
pub use round_net::{FreezeKind, WaitCause};
pub use table::{Grouping, Row, greatest, groups_of};
pub use wait::Wait;

mod behind;
mod blame;
mod cause_runs;
mod counting;
mod differences;
mod explained_stay;
mod explanation;
mod first_waits;
mod freeze;
mod freeze_list;
mod keys;
mod kind;
mod known;
mod latency;
mod laws;
mod limit;
mod listing;
mod origin;
mod pairs;
mod part;
mod ranks;
mod recorded;
mod requests;
mod sends;
mod table;
mod totals;
mod wait;
