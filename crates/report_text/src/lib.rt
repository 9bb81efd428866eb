//! Reports on a net, written and read: what a schedule costs, its stays, and the prices that are to prove that none costs less.
#![tactic(auto)]

pub use claim::Claim;
pub use reader::{read_claim, read_report};
pub use report::{push_plan, push_summary};
pub use report_fault::ReportFault;
pub use text::{push_line, push_name};

mod claim;
mod limits;
mod lines;
mod pieces;
mod price_lines;
mod reader;
mod report;
mod report_fault;
mod stay_lines;
mod summary;
mod text;
