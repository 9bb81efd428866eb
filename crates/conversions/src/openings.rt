//! The configuration of a recording's script.

ghost use Rattle.std.specs.Prelude.{◌≡◌, ◌≤◌, None, length, IfOk, MatchResult};
ghost use Rattle.std.specs.List.{range_with_len};
ghost use Rattle.std.specs.Option.{option_or};
ghost use Rattle.cam_types.specs.Lists.{prefixed, first_answer};
ghost use Rattle.cam_types.specs.declared.limits.TheConstants.{MAX_ADAPTERS, MAX_DEVICES, MAX_LINKS, MAX_ROUNDS};
ghost use Rattle.conversions.specs.Faults.{IsFault};
ghost use Rattle.conversions.specs.RecordingScript.{adapter_fault, config_of, device_fault, link_fault, openings_fault};

use crate::fault::ScriptFault;
use crate::greatest::{adapters_of, devices_of, links_of};
use cam_types::{Adapter, Config, ConfigError, Device, MAX_OPENINGS, WeightRow};
use recording_file::{Recording, cap_table};
use std::alloc::{AllocError, Global};

/// The recording's weights, links, adapters and devices, with the greatest caps for openings, and a lane on each adapter.
///
/// # Errors
///
/// `Device`, `Adapter` or `Link` names the first that takes more than 255 in a round. `OutOfMemory` if no memory is left.
pub(crate) fn config_of(alloc: Global, recording: &Recording) -> Result<Config, ScriptFault>
    requires { recording.now.rounds ≤ MAX_ROUNDS }
    ensures config { IfOk result (λ c. c ≡ config_of recording.now) }
    ensures fault { MatchResult result
        (λ _. openings_fault (config_of recording.now) ≡ None)
        (λ fault. IsFault (openings_fault (config_of recording.now)) fault) }
{
    // It keeps the rules of a configuration.
    let config = recording.config();
    let caps = cap_table(alloc, recording)?;
    let links = links_of(alloc, recording, &caps)?;
    let adapters = adapters_of(alloc, recording, &caps)?;
    let devices = devices_of(alloc, recording, &caps)?;
    if let Some(fault) = openings_fault(&links, &adapters, &devices) {
        return Err(fault);
    }
    let lanes = numbers(alloc, adapters.len())?;
    let weights = config.weights();
    match Config::with_links(alloc, weights, &links, &adapters, &devices, &lanes) {
        Ok(config) => Ok(config),
        Err(ConfigError::OutOfMemory) => Err(ScriptFault::OutOfMemory),
        Err(ConfigError::Fault(_)) => unreachable!(),
    }
}

// The numbers of that many.
fn numbers(alloc: Global, count: usize) -> Result<Vec<u32>, AllocError>
    requires { count ≤ MAX_ADAPTERS }
    ensures { IfOk result (λ numbers. numbers.items ≡ range_with_len 0 count) }
{
    let mut numbers = Vec::new(alloc);
    for number in 0..count as u32 {
        numbers.push(number)?;
    }
    Ok(numbers)
}

// The first device, adapter or link with more openings than there may be.
fn openings_fault(links: &[u32], adapters: &[Adapter], devices: &[Device]) -> Option<ScriptFault>
    requires links { length links.now ≤ MAX_LINKS }
    requires adapters { length adapters.now ≤ MAX_ADAPTERS }
    requires devices { length devices.now ≤ MAX_DEVICES }
    ensures { result ≡ option_or (first_answer device_fault (prefixed devices.now)) (option_or (first_answer adapter_fault (prefixed adapters.now)) (first_answer link_fault (prefixed links.now))) }
{
    devices_fault(devices)
        .or(adapters_fault(adapters))
        .or(links_fault(links))
}

fn devices_fault(devices: &[Device]) -> Option<ScriptFault>
    requires { length devices.now ≤ MAX_DEVICES }
    ensures { result ≡ first_answer device_fault (prefixed devices.now) }
{
    for (number, device) in devices.iter().enumerate() {
        if device.openings > MAX_OPENINGS {
            return Some(ScriptFault::Device(number as u32, device.openings));
        }
    }
    None
}

fn adapters_fault(adapters: &[Adapter]) -> Option<ScriptFault>
    requires { length adapters.now ≤ MAX_ADAPTERS }
    ensures { result ≡ first_answer adapter_fault (prefixed adapters.now) }
{
    for (number, adapter) in adapters.iter().enumerate() {
        if adapter.openings > MAX_OPENINGS {
            return Some(ScriptFault::Adapter(number as u32, adapter.openings));
        }
    }
    None
}

fn links_fault(links: &[u32]) -> Option<ScriptFault>
    requires { length links.now ≤ MAX_LINKS }
    ensures { result ≡ first_answer link_fault (prefixed links.now) }
{
    for (number, openings) in links.iter().enumerate() {
        if *openings > MAX_OPENINGS {
            return Some(ScriptFault::Link(number as u32, *openings));
        }
    }
    None
}
