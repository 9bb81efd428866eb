//! Configurations: weights, links, adapters, devices and lanes that keep the rules.

ghost use Rattle.std.specs.Prelude.{◌≡◌, [], ◌≤◌, length, map, IfOk};
ghost use Rattle.cam_types.specs.Topology.{unlinked, IsConfig, MAX_DEVICES};
ghost use Rattle.cam_types.specs.Weights.{standard_weights};
ghost use Rattle.cam_types.specs.Made.{MadeFrom};
ghost use Rattle.cam_types.specs.declared.config.ConfigError.TheVariants.{OutOfMemory};

mod questions;

use crate::adapter::Adapter;
use crate::config_fault::ConfigFault;
use crate::config_rules::{adapters_fault, config_fault, unlinked_fault};
use crate::device::Device;
use crate::weight_row::{WeightRow, standard_weights};
use std::alloc::{AllocError, AllocFailed, Global};
use std::marker::Model;
use thiserror::Error;

/// Why no configuration was made.
#[derive(Clone, Copy, Debug, PartialEq, Eq, Error)]
pub enum ConfigError {
    /// A rule is broken.
    #[error("{0}")]
    Fault(ConfigFault),
    /// There is no memory left.
    #[error("out of memory")]
    OutOfMemory,
}

impl<T: Drop> From<AllocFailed<T>> for ConfigError {
    ghost from_gives = { λ _ e. e ≡ OutOfMemory };

    fn from(_error: AllocFailed<T>) -> ConfigError {
        ConfigError::OutOfMemory
    }
}

impl From<AllocError> for ConfigError {
    ghost from_gives = { λ _ e. e ≡ OutOfMemory };

    fn from(_error: AllocError) -> ConfigError {
        ConfigError::OutOfMemory
    }
}

/// Weights, links, adapters, devices and lanes that keep the rules of `ConfigFault`.
#[derive(Debug)]
pub struct Config {
    pub(crate) weights: Vec<WeightRow>,
    pub(crate) links: Vec<u32>,
    pub(crate) adapters: Vec<Adapter>,
    pub(crate) devices: Vec<Device>,
    pub(crate) lanes: Vec<u32>,
}

// By hand, so that to its owners a configuration that ends is one call and not each of its fields.
impl Drop for Config {
    fn drop(self) {
        let Config {
            weights: _,
            links: _,
            adapters: _,
            devices: _,
            lanes: _,
        } = self;
    }
}

impl Model for Config {
    ghost use Rattle.cam_types.specs.Topology.{Topology, IsConfig};

    ghost Value = { Topology };

    ghost view = { λ c. record { weights = c.weights.items; links = c.links.items; adapters = c.adapters.items; devices = c.devices.items; lanes = c.lanes.items } };

    ghost invariant = { λ c. IsConfig (record { weights = c.weights.items; links = c.links.items; adapters = c.adapters.items; devices = c.devices.items; lanes = c.lanes.items }) };
}

impl Config {
    /// The configuration of adapters with these openings, these devices, and a lane on each of these adapters, with the
    /// standard table of weights.
    pub fn new(
        alloc: Global,
        adapters: &[u32],
        devices: &[Device],
        lanes: &[u32],
    ) -> Result<Config, ConfigError>
        ensures { MadeFrom (record { weights = standard_weights; links = []; adapters = map unlinked adapters.now; devices = devices.now; lanes = lanes.now }) result }
    {
        Config::with_weights(
            alloc,
            standard_weights().as_slice(),
            adapters,
            devices,
            lanes,
        )
    }

    /// The same with this table of weights: 1 to 16 rows, of which the last one's range ends at priority 1279.
    pub fn with_weights(
        alloc: Global,
        weights: &[WeightRow],
        adapters: &[u32],
        devices: &[Device],
        lanes: &[u32],
    ) -> Result<Config, ConfigError>
        ensures { MadeFrom (record { weights = weights.now; links = []; adapters = map unlinked adapters.now; devices = devices.now; lanes = lanes.now }) result }
    {
        let fault = unlinked_fault(adapters);
        if let Some(fault) = config_fault(weights, &[], adapters.len(), fault, devices, lanes) {
            return Err(ConfigError::Fault(fault));
        }
        Ok(Config {
            weights: weights.to_vec(alloc)?,
            links: Vec::new(alloc),
            adapters: unlinked(alloc, adapters)?,
            devices: devices.to_vec(alloc)?,
            lanes: lanes.to_vec(alloc)?,
        })
    }

    /// The same with links of these openings, and adapters of which each is on one of them or on none.
    pub fn with_links(
        alloc: Global,
        weights: &[WeightRow],
        links: &[u32],
        adapters: &[Adapter],
        devices: &[Device],
        lanes: &[u32],
    ) -> Result<Config, ConfigError>
        ensures { MadeFrom (record { weights = weights.now; links = links.now; adapters = adapters.now; devices = devices.now; lanes = lanes.now }) result }
    {
        let fault = adapters_fault(links.len(), adapters);
        if let Some(fault) = config_fault(weights, links, adapters.len(), fault, devices, lanes) {
            return Err(ConfigError::Fault(fault));
        }
        Ok(Config {
            weights: weights.to_vec(alloc)?,
            links: links.to_vec(alloc)?,
            adapters: adapters.to_vec(alloc)?,
            devices: devices.to_vec(alloc)?,
            lanes: lanes.to_vec(alloc)?,
        })
    }

    /// The table of weights, by rising priority.
    pub fn weights(&self) -> &[WeightRow]
        ensures same { result.now ≡ self.now.weights }
        ensures kept { IsConfig self.now }
    {
        &self.weights
    }

    /// The openings of each link.
    pub fn links(&self) -> &[u32]
        ensures same { result.now ≡ self.now.links }
        ensures kept { IsConfig self.now }
    {
        &self.links
    }

    /// The adapters.
    pub fn adapters(&self) -> &[Adapter]
        ensures same { result.now ≡ self.now.adapters }
        ensures kept { IsConfig self.now }
    {
        &self.adapters
    }

    /// The devices.
    pub fn devices(&self) -> &[Device]
        ensures same { result.now ≡ self.now.devices }
        ensures few { length result.now ≤ MAX_DEVICES }
        ensures kept { IsConfig self.now }
    {
        &self.devices
    }

    /// The adapter of each lane.
    pub fn lanes(&self) -> &[u32]
        ensures same { result.now ≡ self.now.lanes }
        ensures kept { IsConfig self.now }
    {
        &self.lanes
    }

    /// An equal configuration.
    pub fn copy(&self, alloc: Global) -> Result<Config, AllocError>
        ensures { IfOk result (λ c. c ≡ self.now) }
    {
        Ok(Config {
            weights: self.weights.to_vec(alloc)?,
            links: self.links.to_vec(alloc)?,
            adapters: self.adapters.to_vec(alloc)?,
            devices: self.devices.to_vec(alloc)?,
            lanes: self.lanes.to_vec(alloc)?,
        })
    }
}

// Adapters of these openings, each on no link.
fn unlinked(alloc: Global, openings: &[u32]) -> Result<Vec<Adapter>, AllocError>
    ensures { IfOk result (λ adapters. adapters.items ≡ map unlinked openings.now) }
{
    let mut adapters = Vec::new(alloc);
    for openings in openings {
        adapters.push(Adapter {
            openings: *openings,
            link: None,
        })?;
    }
    Ok(adapters)
}
