//! The devices, adapters and links in their order.

ghost use Rattle.std.specs.Prelude.{◌≡◌, ◌++◌, IfOk, OnOk};
ghost use Rattle.recording_file.specs.Caps.{openings};
ghost use Rattle.recording_file.specs.Recorded.{takes_of};
ghost use Rattle.cam_types.specs.Topology.{IsConfig};
ghost use Rattle.cam_types.specs.Questions.{device_openings, is_under};
ghost use Rattle.capture.specs.Parts.{all_parts, parts_of_kind};

use cam_types::Config;
use recording_file::{Part, PartKind};
use std::alloc::{AllocError, Global};

/// All devices, then all adapters, then all links. It fails only if there is no memory.
pub fn all_parts(alloc: Global, config: &Config) -> Result<Vec<Part>, AllocError>
    ensures parts { IfOk result (λ parts. parts.items ≡ all_parts config.now) }
    ensures kept { OnOk result (IsConfig config.now) }
{
    let mut parts = Vec::new(alloc);
    add_parts(&mut parts, PartKind::Device, config.devices().len() as u32)?;
    add_parts(
        &mut parts,
        PartKind::Adapter,
        config.adapters().len() as u32,
    )?;
    add_parts(&mut parts, PartKind::Link, config.links().len() as u32)?;
    Ok(parts)
}

// Adds all of a kind.
fn add_parts(parts: &mut Vec<Part>, kind: PartKind, count: u32) -> Result<(), AllocError>
    ensures { OnOk result (parts.new.items ≡ parts.old.items ++ parts_of_kind kind count) }
{
    for number in 0..count {
        parts.push(Part { kind, number })?;
    }
    Ok(())
}

/// How many requests the configuration lets a part take in a round.
pub fn openings(config: &Config, part: Part) -> u32
    ensures { result ≡ openings config.now part }
{
    match part.kind {
        PartKind::Device => device_openings(config, part.number),
        PartKind::Adapter => config.adapter_openings(part.number),
        PartKind::Link => config.link_openings(part.number),
    }
}

// The openings of a device, and 0 if there is none of that number.
fn device_openings(config: &Config, device: u32) -> u32
    ensures { result ≡ device_openings config.now device }
{
    match config.devices().get(device as usize) {
        Some(device) => device.openings,
        None => 0,
    }
}

/// Whether the requests of a device take of a part.
pub fn takes(config: &Config, part: Part, device: u32) -> bool
    ensures { result ≡ takes_of config.now part device }
{
    match part.kind {
        PartKind::Device => device == part.number,
        PartKind::Adapter => config.is_on(part.number, device),
        PartKind::Link => is_under(config, part.number, device),
    }
}

// Whether a device is on an adapter that is on the link.
fn is_under(config: &Config, link: u32, device: u32) -> bool
    ensures { result ≡ is_under config.now link device }
{
    match config.device_adapter(device) {
        Some(adapter) => config.adapter_link(adapter) == Some(link),
        None => false,
    }
}
