//! The types that every crate of camxpt shares: priorities, limits, configurations and results; readers and writers that
//! remember a failure, whole texts, and decimal numbers.
#![tactic(auto)]

pub use adapter::Adapter;
pub use command::Command;
pub use config::{Config, ConfigError};
pub use config_fault::ConfigFault;
pub use config_rules::are_openings;
pub use device::Device;
pub use flags::Flags;
pub use limits::{
    BadLimit, Limits, MAX_ADAPTERS, MAX_BYTES, MAX_CCBS, MAX_DEVICES, MAX_EVENTS, MAX_FREEZES,
    MAX_LANES, MAX_LINKS, MAX_LUN, MAX_OPENINGS, MAX_PRIORITY, MAX_RETRIES, MAX_ROUNDS, MAX_SENSE,
    MAX_STAYS, MAX_WEIGHT, MAX_WEIGHT_ROWS, limits_are_these,
};
pub use number::read_number;
pub use outcome::Outcome;
pub use partial_config::PartialConfig;
pub use priority::{BadPriority, Priority};
pub use sense_bytes::SenseBytes;
pub use watched::Watched;
pub use weight_row::{WeightRow, standard_weights, standard_weights_go_by_run_level};
pub use whole::{WholeFault, WriteFailed, read_whole, read_within, write_whole};

mod adapter;
mod command;
mod config;
mod config_fault;
mod config_rules;
mod device;
mod flags;
mod limits;
mod number;
mod outcome;
mod partial_config;
mod priority;
mod sense_bytes;
mod watched;
mod weight_row;
mod whole;
