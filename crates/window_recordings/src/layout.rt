//! The adapters and devices of a recording that is made of a capture, and the names in it.

ghost use Rattle.std.specs.Prelude.{◌≡◌, [], IfOk};
ghost use Rattle.cam_types.specs.Topology.{Topology};
ghost use Rattle.window_recordings.specs.Recordings.{HasRounds};

use crate::cut_fault::CutFault;
use cam_types::{Adapter, Config, ConfigError, Device, standard_weights};
use capture::{Capture, shared_openings};
use recording_file::{Name, NameKind, Recording};
use std::alloc::{AllocError, Global};

/// The adapter of a device, from 0 on, and how many requests that adapter takes in a round.
#[derive(Clone, Copy)]
pub struct Host {
    pub adapter: u32,
    pub openings: u32,
}

/// What is given of devices, by their names.
#[derive(Drop)]
pub struct Layout {
    /// The adapters of devices.
    pub hosts: Vec<(String, Host)>,
    /// How many requests they take in a round.
    pub ratings: Vec<(String, u32)>,
    /// How many requests they serve at once.
    pub depths: Vec<(String, u32)>,
}

impl Layout {
    /// The recording of a capture, with the starts that each device had room for, and the names of its devices and drivers.
    ///
    /// # Errors
    ///
    /// `TooManyAdapters` if more than 8 adapters are given, `Capture` if there is no recording of the requests, `OutOfMemory` if no memory is left.
    #[tactic(auto, unfolding(capture::specs::Captured::recorded_of))]
    pub fn recording(
        &self,
        alloc: Global,
        capture: &Capture,
        spare: &[Vec<u32>],
        devices: &[String],
        drivers: &[String],
    ) -> Result<Recording, CutFault>
        ensures { IfOk result (λ r. HasRounds capture.now r) }
    {
        let (laid, rated) = self.devices_of(alloc, capture, devices)?;
        let (adapters, open) = adapters_of(alloc, &self.hosts, devices, &laid)?;
        let config = config_of(alloc, &adapters, &laid)?;
        let names = names_of(alloc, drivers, devices)?;
        Ok(capture.recording(alloc, &config, &rated, &open, spare, names)?)
    }

    // The devices, each with the openings that are given or that it usually takes, and whether they were given.
    fn devices_of(
        &self,
        alloc: Global,
        capture: &Capture,
        names: &[String],
    ) -> Result<(Vec<Device>, Vec<bool>), AllocError> {
        let last = count_of(&self.hosts, names).saturating_sub(1);
        let usual = capture.usual_taken(alloc, u32::try_from(names.len()).unwrap_or(u32::MAX))?;
        let mut devices = Vec::new(alloc);
        let mut rated = Vec::new(alloc);
        for (name, usual) in names.iter().zip(&usual) {
            let adapter = value_of(&self.hosts, name).map_or(last, |host| host.adapter);
            let rating = value_of(&self.ratings, name);
            rated.push(rating.is_some())?;
            let device = device_on(&devices, adapter, rating.unwrap_or(*usual));
            devices.push(device)?;
        }
        Ok((devices, rated))
    }
}

/// What a list has for a name.
pub fn value_of<T: Copy>(list: &[(String, T)], name: &str) -> Option<T> {
    for (other, value) in list {
        if other.as_str() == name {
            return Some(*value);
        }
    }
    None
}

// The adapters, and of each whether its openings are unknown: then it takes what its devices take together. Devices without an
// adapter share one after those that are given.
fn adapters_of(
    alloc: Global,
    hosts: &[(String, Host)],
    names: &[String],
    devices: &[Device],
) -> Result<(Vec<Adapter>, Vec<bool>), AllocError> {
    let mut adapters = Vec::new(alloc);
    let mut open = Vec::new(alloc);
    for number in 0..count_of(hosts, names) {
        let openings = openings_of(hosts, names, number);
        open.push(openings.is_none())?;
        let shared = shared_openings(devices, bus_of(number));
        adapters.push(Adapter {
            openings: openings.unwrap_or(shared),
            link: None,
        })?;
    }
    Ok((adapters, open))
}

// How many adapters there are.
fn count_of(hosts: &[(String, Host)], names: &[String]) -> u32 {
    let mut given = 0u32;
    let mut shared = names.is_empty();
    for name in names {
        match value_of(hosts, name) {
            Some(host) => given = given.max(host.adapter.saturating_add(1)),
            None => shared = true,
        }
    }
    if shared {
        given.saturating_add(1)
    } else {
        given
    }
}

// The openings of an adapter, if they are given.
fn openings_of(hosts: &[(String, Host)], names: &[String], number: u32) -> Option<u32> {
    for name in names {
        if let Some(host) = value_of(hosts, name)
            && host.adapter == number
        {
            return Some(host.openings);
        }
    }
    None
}

// The next device of an adapter: targets are numbered from 1.
fn device_on(devices: &[Device], adapter: u32, openings: u32) -> Device {
    let bus = bus_of(adapter);
    let before = devices.iter().filter(|device| device.bus == bus).count();
    Device {
        bus,
        target: u16::try_from(before.saturating_add(1)).unwrap_or(u16::MAX),
        lun: 0,
        openings,
    }
}

// An adapter as a device names it.
fn bus_of(adapter: u32) -> u8 {
    u8::try_from(adapter).unwrap_or(u8::MAX)
}

// A configuration with the standard weights and without lanes.
fn config_of(alloc: Global, adapters: &[Adapter], devices: &[Device]) -> Result<Config, ConfigError>
    ensures { IfOk result (λ (c : Topology). c.lanes ≡ []) }
{
    Config::with_links(alloc, &standard_weights(), &[], adapters, devices, &[])
}

// The names of drivers and devices, but for those that no recording can have.
fn names_of(
    alloc: Global,
    drivers: &[String],
    devices: &[String],
) -> Result<Vec<Name>, AllocError> {
    let mut names = Vec::new(alloc);
    add_names(alloc, &mut names, NameKind::Driver, drivers)?;
    add_names(alloc, &mut names, NameKind::Device, devices)?;
    Ok(names)
}

fn add_names(
    alloc: Global,
    names: &mut Vec<Name>,
    kind: NameKind,
    texts: &[String],
) -> Result<(), AllocError> {
    let mut number = 0u32;
    for text in texts {
        if let Some(name) = Name::new(alloc, kind, number, text.as_bytes())? {
            names.push(name)?;
        }
        number = number.saturating_add(1);
    }
    Ok(())
}
