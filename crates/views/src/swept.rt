//! A sweep of which there is something to print.

use cam_types::Config;
pub use page::sweep_page;
use sweep::{Row, SweepPlan};

mod page;
mod title;

/// The rows of a sweep, with what they are of.
#[derive(Clone, Copy)]
pub struct Swept<'a> {
    /// What the script is called: any text.
    pub name: &'a str,
    /// The script's configuration, in which settings make changes.
    pub config: &'a Config,
    /// The settings, and how many seeds ran each.
    pub plan: &'a SweepPlan,
    /// A row for each setting, in the same order.
    pub rows: &'a [Row],
}
