//! The devices of block events, by their own names, and as which ones they are listed.

use crate::captured::Counts;
use crate::line_fault::LineFault;
use crate::names::Names;
use crate::options::Options;
use std::alloc::Global;

// The number as which a device is listed, and what was counted of it.
#[derive(Clone, Copy)]
struct OwnDevice {
    listed: u32,
    starts: u64,
    ends_without_start: u64,
}

/// The devices that are taken, each by the name that events give it. Several may be listed as one.
#[derive(Drop)]
pub struct OwnDevices {
    listed: Names,
    names: Names,
    list: Vec<OwnDevice>,
}

impl OwnDevices {
    /// No devices yet.
    pub fn new(alloc: Global) -> OwnDevices {
        OwnDevices {
            listed: Names::new(alloc),
            names: Names::new(alloc),
            list: Vec::new(alloc),
        }
    }

    /// The names as which they are listed.
    pub fn listed(&self) -> &[Vec<u8>] {
        self.listed.list()
    }

    /// The number of a device among those of its kind of name. None: it isn't taken.
    pub fn number(&mut self, options: &Options, name: &[u8]) -> Result<Option<usize>, LineFault> {
        if let Some(number) = self.names.number_of(name) {
            return Ok(Some(number));
        }
        let Some(listed) = options.listed_device(name) else {
            return Ok(None);
        };
        let listed = self.listed.device(listed)?;
        self.list.push(OwnDevice {
            listed,
            starts: 0,
            ends_without_start: 0,
        })?;
        Ok(Some(self.names.add(name)?))
    }

    /// The number as which a device is listed.
    pub fn listed_as(&self, number: usize) -> Option<u32> {
        Some(self.list.get(number)?.listed)
    }

    /// The same, if something was started at the device.
    pub fn listed_with_starts(&self, number: u32) -> Option<u32> {
        match self.list.get(number as usize) {
            Some(device) if device.starts > 0 => Some(device.listed),
            _ => None,
        }
    }

    /// Counts a start at a device.
    pub fn count_start(&mut self, number: usize) {
        if let Some(device) = self.list.get_mut(number) {
            device.starts = device.starts.saturating_add(1);
        }
    }

    /// Counts a request of a device that ended without a start.
    pub fn count_end(&mut self, number: usize) {
        if let Some(device) = self.list.get_mut(number) {
            device.ends_without_start = device.ends_without_start.saturating_add(1);
        }
    }

    /// These counts, and what was counted here.
    pub fn counted(&self, counts: Counts) -> Counts {
        let mut counts = counts;
        for device in &self.list {
            let ends = device.ends_without_start;
            if device.starts > 0 {
                counts.lost_starts = counts.lost_starts.saturating_add(ends);
            } else {
                counts.devices_without_starts = counts.devices_without_starts.saturating_add(1);
                counts.requests_without_starts = counts
                    .requests_without_starts
                    .saturating_add(ends);
            }
        }
        counts
    }
}
