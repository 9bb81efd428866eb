//! A configuration in the making.

ghost use Rattle.std.specs.Prelude.{◌≡◌, [], ◌∷◌, ◌++◌, ◌≤◌, length, IfOk, OnOk, OnErr, MatchOption, IsOkUnless};
ghost use Rattle.cam_types.specs.Topology.{link_fault, adapter_fault, device_fault, lane_fault, config_fault, MAX_LINKS, MAX_WEIGHT_ROWS};
ghost use Rattle.cam_types.specs.Weights.{reaches_last, standard_weights, weight_fault};
ghost use Rattle.cam_types.specs.declared.config.ConfigError.TheVariants.{Fault, OutOfMemory};

use crate::adapter::Adapter;
use crate::config::{Config, ConfigError};
use crate::config_fault::ConfigFault;
use crate::config_rules::{
    adapter_fault, device_fault, lack, lane_fault, link_fault, reaches_last, weight_fault,
};
use crate::device::Device;
use crate::weight_row::{WeightRow, standard_weights};
use std::alloc::{AllocError, Global};
use std::marker::Model;

/// A configuration in the making: items are added one by one, and each keeps the rules.
#[derive(Debug, Drop)]
pub struct PartialConfig {
    weights: Vec<WeightRow>,
    links: Vec<u32>,
    adapters: Vec<Adapter>,
    devices: Vec<Device>,
    lanes: Vec<u32>,
}

impl Model for PartialConfig {
    ghost use Rattle.cam_types.specs.Topology.{Topology, IsPartial};

    ghost Value = { Topology };

    ghost view = { λ d. record { weights = d.weights.items; links = d.links.items; adapters = d.adapters.items; devices = d.devices.items; lanes = d.lanes.items } };

    ghost invariant = { λ d. IsPartial (record { weights = d.weights.items; links = d.links.items; adapters = d.adapters.items; devices = d.devices.items; lanes = d.lanes.items }) };
}

impl PartialConfig {
    /// A configuration without any item.
    pub fn new(alloc: Global) -> PartialConfig
        ensures { result ≡ record { weights = []; links = []; adapters = []; devices = []; lanes = [] } }
    {
        PartialConfig {
            weights: Vec::new(alloc),
            links: Vec::new(alloc),
            adapters: Vec::new(alloc),
            devices: Vec::new(alloc),
            lanes: Vec::new(alloc),
        }
    }

    /// A configuration of the standard table of weights alone.
    pub fn standard(alloc: Global) -> Result<PartialConfig, AllocError>
        ensures { IfOk result (λ d. d ≡ record { weights = standard_weights; links = []; adapters = []; devices = []; lanes = [] }) }
    {
        Ok(PartialConfig {
            weights: standard_weights().to_vec(alloc)?,
            links: Vec::new(alloc),
            adapters: Vec::new(alloc),
            devices: Vec::new(alloc),
            lanes: Vec::new(alloc),
        })
    }

    /// Adds a row to the table of weights. If it is refused, nothing changes.
    pub fn add_weight(&mut self, row: WeightRow) -> Result<(), ConfigError>
        ensures answer { MatchOption (weight_fault (self.old.weights, row)) (IsOkUnless result OutOfMemory) (λ f. result ≡ Err (Fault f)) }
        ensures ok { OnOk result (self.new ≡ record self.old { weights = self.old.weights ++ row ∷ [] }) }
        ensures err { OnErr result (self.new ≡ self.old) }
    {
        if let Some(fault) = weight_fault(&self.weights, row) {
            return Err(ConfigError::Fault(fault));
        }
        self.weights.push(row)?;
        Ok(())
    }

    /// How many rows the table of weights has, at most 16.
    pub fn weight_count(&self) -> u32
        ensures same { result ≡ length self.now.weights }
        ensures few { result ≤ MAX_WEIGHT_ROWS }
    {
        self.weights.len() as u32
    }

    /// Whether the table of weights reaches the last priority, 1279, as a configuration's does.
    pub fn reaches_last(&self) -> bool
        ensures { result ≡ reaches_last self.now.weights }
    {
        reaches_last(&self.weights)
    }

    /// Adds a link of that many openings, before any adapter. If it is refused, nothing changes.
    pub fn add_link(&mut self, openings: u32) -> Result<(), ConfigError>
        requires no_adapter { self.old.adapters ≡ [] }
        ensures answer { MatchOption (link_fault (self.old.links, openings)) (IsOkUnless result OutOfMemory) (λ f. result ≡ Err (Fault f)) }
        ensures ok { OnOk result (self.new ≡ record self.old { links = self.old.links ++ openings ∷ [] }) }
        ensures err { OnErr result (self.new ≡ self.old) }
    {
        if let Some(fault) = link_fault(&self.links, openings) {
            return Err(ConfigError::Fault(fault));
        }
        self.links.push(openings)?;
        Ok(())
    }

    /// How many links there are, at most 4.
    pub fn link_count(&self) -> u32
        ensures same { result ≡ length self.now.links }
        ensures few { result ≤ MAX_LINKS }
    {
        self.links.len() as u32
    }

    /// Adds an adapter, before any device or lane. If it is refused, nothing changes.
    pub fn add_adapter(&mut self, adapter: Adapter) -> Result<(), ConfigError>
        requires no_device { self.old.devices ≡ [] }
        requires no_lane { self.old.lanes ≡ [] }
        ensures answer { MatchOption (adapter_fault (length self.old.links) (self.old.adapters, adapter)) (IsOkUnless result OutOfMemory) (λ f. result ≡ Err (Fault f)) }
        ensures ok { OnOk result (self.new ≡ record self.old { adapters = self.old.adapters ++ adapter ∷ [] }) }
        ensures err { OnErr result (self.new ≡ self.old) }
    {
        if let Some(fault) = adapter_fault(self.links.len(), &self.adapters, adapter) {
            return Err(ConfigError::Fault(fault));
        }
        self.adapters.push(adapter)?;
        Ok(())
    }

    /// Adds a device. If it is refused, nothing changes.
    pub fn add_device(&mut self, device: Device) -> Result<(), ConfigError>
        ensures answer { MatchOption (device_fault (length self.old.adapters) (self.old.devices, device)) (IsOkUnless result OutOfMemory) (λ f. result ≡ Err (Fault f)) }
        ensures ok { OnOk result (self.new ≡ record self.old { devices = self.old.devices ++ device ∷ [] }) }
        ensures err { OnErr result (self.new ≡ self.old) }
    {
        if let Some(fault) = device_fault(self.adapters.len(), &self.devices, device) {
            return Err(ConfigError::Fault(fault));
        }
        self.devices.push(device)?;
        Ok(())
    }

    /// Adds a lane of the adapter of this number. If it is refused, nothing changes.
    pub fn add_lane(&mut self, adapter: u32) -> Result<(), ConfigError>
        ensures answer { MatchOption (lane_fault (length self.old.adapters) (self.old.lanes, adapter)) (IsOkUnless result OutOfMemory) (λ f. result ≡ Err (Fault f)) }
        ensures ok { OnOk result (self.new ≡ record self.old { lanes = self.old.lanes ++ adapter ∷ [] }) }
        ensures err { OnErr result (self.new ≡ self.old) }
    {
        if let Some(fault) = lane_fault(self.adapters.len(), &self.lanes, adapter) {
            return Err(ConfigError::Fault(fault));
        }
        self.lanes.push(adapter)?;
        Ok(())
    }

    /// The configuration of these items, which is refused only for what it lacks.
    pub fn finish(self) -> Result<Config, ConfigFault>
        ensures { MatchOption (config_fault self) (result ≡ Ok self) (λ f. result ≡ Err f) }
    {
        if let Some(fault) = lack(&self.weights, self.adapters.len()) {
            return Err(fault);
        }
        let PartialConfig {
            weights,
            links,
            adapters,
            devices,
            lanes,
        } = self;
        Ok(Config {
            weights,
            links,
            adapters,
            devices,
            lanes,
        })
    }
}
