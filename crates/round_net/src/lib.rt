//! The net of a history: stays with windows and weights, a cap for each resource in each round; schedules and prices over it.
#![tactic(auto)]

pub use cause::WaitCause;
pub use flat::cell;
pub use freeze_kind::FreezeKind;
pub use limits::{MAX_CAP, MAX_NET_ROUNDS, MAX_NET_STAYS};
pub use net::Net;
pub use net_fault::NetFault;
pub use price_range::{MAX_NET_PRICE, MAX_PRICE, PriceRange};
pub use prices::Prices;
pub use recorded_rows::recorded_cost;
pub use round_table::RoundTable;
pub use schedule::Schedule;
pub use waiting::{cost, live_cost};

mod cap_rows;
mod cause;
mod cause_name;
mod flat;
mod freeze_kind;
mod limits;
mod load_list;
mod marks;
mod net;
mod net_fault;
mod pace;
mod price_range;
mod prices;
mod recorded_rows;
mod resource_state;
mod round_ends;
mod round_table;
mod schedule;
mod stay_row;
mod stay_rows;
mod waiting;
mod walk;
