//! What a device is called.

use crate::path::CamPath;
use cam_types::Config;
use std::alloc::{AllocError, Global};

/// The path of a device as text, or its number if the configuration doesn't have it.
pub fn path_name(alloc: Global, config: &Config, device: u32) -> Result<String, AllocError> {
    match config.devices().get(device as usize) {
        Some(device) => {
            let path = CamPath::of(device);
            format!(in alloc; "{}:{}:{}", path.bus, path.target, path.lun)
        }
        None => format!(in alloc; "{device}"),
    }
}
