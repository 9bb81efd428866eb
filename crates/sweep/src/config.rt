//! A configuration with other openings.

ghost use Rattle.std.specs.Prelude.{◌≡◌, true, find, IfOk};
ghost use Rattle.sweep.specs.Changes.{changed_adapters, changed_devices, changed_config, is_of_adapter, is_of_device, openings_by};
ghost use Rattle.sweep.specs.Choices.{are_open};

use crate::setting::{Change, Place};
use cam_types::{Adapter, Config, ConfigError, Device};
use std::alloc::{AllocError, Global};

/// The configuration with these openings, and nothing else changed. It fails only if there is no memory.
pub fn changed_config(
    alloc: Global,
    config: &Config,
    changes: &[Change],
) -> Result<Config, AllocError>
    requires { are_open changes.now ≡ true }
    ensures { IfOk result (λ c. c ≡ changed_config config.now changes.now) }
{
    let adapters = changed_adapters(alloc, config.adapters(), changes)?;
    let devices = changed_devices(alloc, config.devices(), changes)?;
    match Config::with_links(
        alloc,
        config.weights(),
        config.links(),
        &adapters,
        &devices,
        config.lanes(),
    ) {
        Ok(config) => Ok(config),
        Err(ConfigError::OutOfMemory) => Err(AllocError),
        Err(ConfigError::Fault(_)) => unreachable!(),
    }
}

// The adapters, each with its openings by the changes.
fn changed_adapters(
    alloc: Global,
    adapters: &[Adapter],
    changes: &[Change],
) -> Result<Vec<Adapter>, AllocError>
    ensures { IfOk result (λ all. all.items ≡ changed_adapters changes.now 0 adapters.now) }
{
    let mut all = Vec::new(alloc);
    for number in 0..adapters.len() {
        let adapter = adapters[number];
        all.push(Adapter {
            openings: adapter_openings(changes, number, adapter.openings),
            link: adapter.link,
        })?;
    }
    Ok(all)
}

// The devices, each with its openings by the changes.
fn changed_devices(
    alloc: Global,
    devices: &[Device],
    changes: &[Change],
) -> Result<Vec<Device>, AllocError>
    ensures { IfOk result (λ all. all.items ≡ changed_devices changes.now 0 devices.now) }
{
    let mut all = Vec::new(alloc);
    for number in 0..devices.len() {
        let device = devices[number];
        all.push(Device {
            bus: device.bus,
            target: device.target,
            lun: device.lun,
            openings: device_openings(changes, number, device.openings),
        })?;
    }
    Ok(all)
}

// The openings of the adapter of this number, whose own are these.
fn adapter_openings(changes: &[Change], number: usize, own: u32) -> u32
    ensures { result ≡ openings_by (is_of_adapter number) changes.now own }
{
    match change_of_adapter(changes, number) {
        Some(change) => change.openings,
        None => own,
    }
}

// The first change of the adapter of this number.
fn change_of_adapter(changes: &[Change], number: usize) -> Option<Change>
    ensures { result ≡ find (is_of_adapter number) changes.now }
{
    changes
        .iter()
        .copied()
        .find(|change| is_of_adapter(change, number))
}

// The openings of the device of this number, whose own are these.
fn device_openings(changes: &[Change], number: usize, own: u32) -> u32
    ensures { result ≡ openings_by (is_of_device number) changes.now own }
{
    match change_of_device(changes, number) {
        Some(change) => change.openings,
        None => own,
    }
}

// The first change of the device of this number.
fn change_of_device(changes: &[Change], number: usize) -> Option<Change>
    ensures { result ≡ find (is_of_device number) changes.now }
{
    changes
        .iter()
        .copied()
        .find(|change| is_of_device(change, number))
}

fn is_of_adapter(change: &Change, number: usize) -> bool
    ensures { result ≡ is_of_adapter number change.now }
{
    match change.place {
        Place::Device(_) => false,
        Place::Adapter(adapter) => adapter as usize == number,
    }
}

fn is_of_device(change: &Change, number: usize) -> bool
    ensures { result ≡ is_of_device number change.now }
{
    match change.place {
        Place::Device(device) => device as usize == number,
        Place::Adapter(_) => false,
    }
}
