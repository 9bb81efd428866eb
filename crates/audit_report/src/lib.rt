//! Whole runs over bytes: a trace or a recording in, a report out.
#![tactic(auto)]

pub use audit::run_audit;
pub use audit_at_once::run_audit_with;
pub use audit_fault::AuditFault;
pub use check::run_check;
pub use input::Input;
pub use migrate::run_migrate;
pub use prove::run_prove;
pub use reading::{read_input, read_net};
pub use record::run_record;

mod audit;
mod audit_at_once;
mod audit_fault;
mod check;
mod costs;
mod finding;
mod input;
mod migrate;
mod prove;
mod reading;
mod record;
