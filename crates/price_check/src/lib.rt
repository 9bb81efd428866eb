//! Whether prices prove that a schedule of a net is a best one, whoever made them. The claims of reports are read by
//! `report_text`, which is handed on.
#![tactic(auto)]

pub use checker::check;
pub use order::costs_are_in_order;
pub use report_text::{Claim, ReportFault, read_report};
pub use verdict::{Cause, Verdict};

mod checker;
mod faults;
mod order;
mod payments;
mod rests;
mod value;
mod verdict;
