//! A configuration without its lanes.

ghost use Rattle.std.specs.Prelude.{◌≡◌, IfOk};
ghost use Rattle.cam_types.specs.Topology.{IsConfig};
ghost use Rattle.conversions.specs.Recorded.{without_lanes};

use cam_types::{Config, ConfigError};
use std::alloc::{AllocError, Global};

/// The weights, links, adapters and devices, as a configuration without lanes. It fails only if there is no memory.
pub fn without_lanes(alloc: Global, config: &Config) -> Result<Config, AllocError>
    ensures same { IfOk result (λ c. c ≡ without_lanes config.now) }
    ensures kept { IfOk result (λ c. IsConfig c) }
{
    match Config::with_links(
        alloc,
        config.weights(),
        config.links(),
        config.adapters(),
        config.devices(),
        &[],
    ) {
        Ok(config) => Ok(config),
        Err(ConfigError::OutOfMemory) => Err(AllocError),
        Err(ConfigError::Fault(_)) => unreachable!(),
    }
}
