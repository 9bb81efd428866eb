//! The devices, adapters and links that have the rows of a net.

ghost use Rattle.std.specs.Prelude.{◌≡◌, ◌<◌};
ghost use Rattle.cam_types.specs.Questions.{device_openings};
ghost use Rattle.recording_file.specs.Caps.{openings};
ghost use Rattle.round_net.specs.Caps.{resource_count};
ghost use Rattle.round_net.specs.RecordedNets.{part_of_resource};

use cam_types::Config;
use recording_file::{Part, PartKind};

/// The device, adapter or link that has the row.
#[tactic(auto, using(cam_types::proofs::ConfigLemmas::few_devices, cam_types::proofs::ConfigLemmas::few_adapters, cam_types::proofs::ConfigLemmas::few_links))]
pub fn part_of_resource(config: &Config, row: u32) -> Part
    requires { row < resource_count config.now }
    ensures { result ≡ part_of_resource config.now row }
{
    let devices = config.devices().len() as u32;
    let adapters = config.adapters().len() as u32;
    if row < devices {
        part(PartKind::Device, row)
    } else if row < devices + adapters {
        part(PartKind::Adapter, row - devices)
    } else {
        part(PartKind::Link, row - (devices + adapters))
    }
}

fn part(kind: PartKind, number: u32) -> Part
    ensures { result ≡ record { kind = kind; number = number } }
{
    Part { kind, number }
}

/// How many commands the configuration lets a part take in a round.
pub fn openings(config: &Config, part: Part) -> u32
    ensures { result ≡ openings config.now part }
{
    match part.kind {
        PartKind::Device => device_openings(config, part.number),
        PartKind::Adapter => config.adapter_openings(part.number),
        PartKind::Link => config.link_openings(part.number),
    }
}

// The openings of a device, and 0 if there is none of that number.
fn device_openings(config: &Config, device: u32) -> u32
    ensures { result ≡ device_openings config.now device }
{
    match config.devices().get(device as usize) {
        Some(device) => device.openings,
        None => 0,
    }
}
