//! The paths of devices: bus, target and lun in decimal, with colons between them, as in `0:1:0`.
#![tactic(auto)]

pub use naming::path_name;
pub use path::{BadPath, CamPath};

mod naming;
mod path;
mod reading;
