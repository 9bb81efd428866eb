//! What is asked of a configuration.

ghost use Rattle.std.specs.Prelude.{◌≡◌, ◌≤◌, slice_get};
ghost use Rattle.std.specs.Option.{option_map};
ghost use Rattle.cam_types.specs.Topology.{IsConfig, Device, MAX_WEIGHT};
ghost use Rattle.cam_types.specs.Weights.{are_standard};
ghost use Rattle.cam_types.specs.Questions.{names_device, names_adapter, names_lane, adapter_link, adapter_openings, link_openings, is_on, weight};

use super::Config;
use crate::priority::Priority;
use crate::weight_row::{are_standard, weight_in};

impl Config {
    /// Whether there is a device of that number.
    pub fn names_device(&self, device: u32) -> bool
        ensures { result ≡ names_device self.now device }
    {
        (device as usize) < self.devices.len()
    }

    /// Whether there is an adapter of that number.
    pub fn names_adapter(&self, adapter: u32) -> bool
        ensures { result ≡ names_adapter self.now adapter }
    {
        (adapter as usize) < self.adapters.len()
    }

    /// Whether there is a lane of that number.
    pub fn names_lane(&self, lane: u32) -> bool
        ensures { result ≡ names_lane self.now lane }
    {
        (lane as usize) < self.lanes.len()
    }

    /// The adapter of a lane, if there is such a lane.
    pub fn lane_adapter(&self, lane: u32) -> Option<u32>
        ensures same { result ≡ slice_get self.now.lanes lane }
        ensures kept { IsConfig self.now }
    {
        self.lanes.get(lane as usize).copied()
    }

    /// The adapter that a device is on, if there is such a device.
    pub fn device_adapter(&self, device: u32) -> Option<u32>
        ensures same { result ≡ option_map (λ (device : Device). device.bus) (slice_get self.now.devices device) }
        ensures kept { IsConfig self.now }
    {
        let device = self.devices.get(device as usize)?;
        Some(u32::from(device.bus))
    }

    /// The link that an adapter is on, if it is on one.
    pub fn adapter_link(&self, adapter: u32) -> Option<u32>
        ensures same { result ≡ adapter_link self.now adapter }
        ensures kept { IsConfig self.now }
    {
        self.adapters.get(adapter as usize)?.link
    }

    /// The openings of an adapter, and 0 if there is none of that number.
    pub fn adapter_openings(&self, adapter: u32) -> u32
        ensures { result ≡ adapter_openings self.now adapter }
    {
        match self.adapters.get(adapter as usize) {
            Some(adapter) => adapter.openings,
            None => 0,
        }
    }

    /// The openings of a link, and 0 if there is none of that number.
    pub fn link_openings(&self, link: u32) -> u32
        ensures { result ≡ link_openings self.now link }
    {
        match self.links.get(link as usize) {
            Some(openings) => *openings,
            None => 0,
        }
    }

    /// Whether the device is on the adapter.
    pub fn is_on(&self, adapter: u32, device: u32) -> bool
        ensures { result ≡ is_on self.now adapter device }
    {
        self.device_adapter(device) == Some(adapter)
    }

    /// What a round of waiting costs at a priority, 1 to 1,000: the weight of the first row of the table whose range isn't over
    /// before it.
    pub fn weight(&self, priority: Priority) -> u32
        ensures same { result ≡ weight self.now priority }
        ensures some { 1 ≤ result }
        ensures most { result ≤ MAX_WEIGHT }
    {
        weight_in(&self.weights, priority.number())
    }

    /// Whether the table of weights is the standard one.
    pub fn has_standard_weights(&self) -> bool
        ensures { result ≡ are_standard self.now.weights }
    {
        are_standard(&self.weights)
    }
}
