//! A parsed row of a configuration.

use crate::device_row::DeviceRow;
use cam_types::{Adapter, WeightRow};

/// What a row of a configuration says.
#[derive(Clone, Copy)]
pub enum ConfigRow {
    Weight(WeightRow),
    /// A link of that many openings.
    Link(u32),
    Sim(Adapter),
    Dev(DeviceRow),
    /// A lane of the adapter of this number.
    Lane(u32),
}
