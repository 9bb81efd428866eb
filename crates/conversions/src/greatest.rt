//! The greatest caps of a recording.

ghost use Rattle.std.specs.Prelude.{◌≡◌, ◌<◌, ◌≤◌, max, map, IfOk};
ghost use Rattle.cam_types.specs.Lists.{prefixed};
ghost use Rattle.cam_types.specs.declared.limits.TheConstants.{MAX_ROUNDS};
ghost use Rattle.recording_file.specs.Caps.{cap_in};
ghost use Rattle.recording_file.specs.Room.{Holds, rows_by};
ghost use Rattle.conversions.specs.RecordingScript.{adapter_at, device_at, greatest, link_at};

use cam_types::{Adapter, Device};
use recording_file::{Part, PartKind, Recording, cell_of};
use std::alloc::{AllocError, Global};

// The greatest cap of the part in a round, and 1 if it takes nothing in any.
fn greatest(recording: &Recording, caps: &[u32], kind: PartKind, number: usize) -> u32
    requires few { recording.now.rounds ≤ MAX_ROUNDS }
    requires part { number < rows_by kind }
    requires caps { Holds recording.now.rounds (cap_in recording.now.config recording.now.caps) caps.now }
    ensures { result ≡ greatest recording.now (record { kind = kind; number = number }) }
{
    let rounds = recording.rounds();
    let part = Part {
        kind,
        number: number as u32,
    };
    let mut most = 1;
    for before in 0..rounds {
        most = greater(most, caps[cell_of(rounds, part, before + 1)]);
    }
    most
}

fn greater(one: u32, other: u32) -> u32
    ensures { result ≡ max one other }
{
    if one < other { other } else { one }
}

/// The links, with their greatest caps for openings. It fails only if there is no memory.
pub(crate) fn links_of(
    alloc: Global,
    recording: &Recording,
    caps: &[u32],
) -> Result<Vec<u32>, AllocError>
    requires few { recording.now.rounds ≤ MAX_ROUNDS }
    requires caps { Holds recording.now.rounds (cap_in recording.now.config recording.now.caps) caps.now }
    ensures { IfOk result (λ links. links.items ≡ map (link_at recording.now) (prefixed recording.now.config.links)) }
{
    let mut links = Vec::new(alloc);
    for number in 0..recording.config().links().len() {
        links.push(greatest(recording, caps, PartKind::Link, number))?;
    }
    Ok(links)
}

/// The adapters, with their greatest caps for openings. It fails only if there is no memory.
pub(crate) fn adapters_of(
    alloc: Global,
    recording: &Recording,
    caps: &[u32],
) -> Result<Vec<Adapter>, AllocError>
    requires few { recording.now.rounds ≤ MAX_ROUNDS }
    requires caps { Holds recording.now.rounds (cap_in recording.now.config recording.now.caps) caps.now }
    ensures { IfOk result (λ adapters. adapters.items ≡ map (adapter_at recording.now) (prefixed recording.now.config.adapters)) }
{
    let mut adapters = Vec::new(alloc);
    for (number, adapter) in recording.config().adapters().iter().enumerate() {
        adapters.push(Adapter {
            openings: greatest(recording, caps, PartKind::Adapter, number),
            link: adapter.link,
        })?;
    }
    Ok(adapters)
}

/// The devices, with their greatest caps for openings. It fails only if there is no memory.
pub(crate) fn devices_of(
    alloc: Global,
    recording: &Recording,
    caps: &[u32],
) -> Result<Vec<Device>, AllocError>
    requires few { recording.now.rounds ≤ MAX_ROUNDS }
    requires caps { Holds recording.now.rounds (cap_in recording.now.config recording.now.caps) caps.now }
    ensures { IfOk result (λ devices. devices.items ≡ map (device_at recording.now) (prefixed recording.now.config.devices)) }
{
    let mut devices = Vec::new(alloc);
    for (number, device) in recording.config().devices().iter().enumerate() {
        devices.push(Device {
            bus: device.bus,
            target: device.target,
            lun: device.lun,
            openings: greatest(recording, caps, PartKind::Device, number),
        })?;
    }
    Ok(devices)
}
