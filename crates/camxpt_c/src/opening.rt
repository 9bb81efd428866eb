//! Opens a transport.

ghost use Rattle.std.specs.Prelude.{◌≡◌, IfOk, IfErr, MatchResult, Some};
ghost use Rattle.camxpt_c.specs.Configs.{plain_topology, linked_topology, bounds_of};
ghost use Rattle.camxpt_c.specs.Openings.{IsOpening, IsConfigOf, opened_port, error_code, limits_in};
ghost use Rattle.camxpt_c.specs.declared.codes.TheConstants.{OK, E_MEMORY};

use crate::codes::{E_LIMIT, E_MEMORY, E_OPEN, OK, fault_code};
use crate::configs::{adapters_of, devices_of, weights_of};
use crate::handle::CamXpt;
use crate::port::Port;
use crate::shapes::{CamxptAdapter, CamxptDevice, CamxptLimits, CamxptWeight};
use cam_types::{Config, ConfigError, Limits};
use std::alloc::Global;

/// Opens a closed handle: adapters of these openings on no link, these devices, and a lane on each of these adapters, with
/// the standard table of weights.
#[unsafe(no_mangle)]
pub extern "C" fn camxpt_raw_open(
    alloc: Global,
    handle: &mut CamXpt,
    adapters: &[u32],
    devices: &[CamxptDevice],
    lanes: &[u32],
    limits: &CamxptLimits,
) -> i32
    ensures { IsOpening (plain_topology adapters.now devices.now lanes.now) (bounds_of limits.now) handle.old.body.kept handle.new.body.kept result }
{
    if let Some(port) = handle.take(alloc) {
        handle.put(port);
        return E_OPEN;
    }
    let Some(limits) = limits_in(limits) else {
        return E_LIMIT;
    };
    match plain_config(alloc, adapters, devices, lanes) {
        Ok(config) => keep(handle, boxed(alloc, config, limits)),
        Err(code) => code,
    }
}

/// The same with this table of weights, with links of these openings, and with adapters of which each is on a link or on none.
#[unsafe(no_mangle)]
pub extern "C" fn camxpt_raw_open_with(
    alloc: Global,
    handle: &mut CamXpt,
    weights: &[CamxptWeight],
    links: &[u32],
    adapters: &[CamxptAdapter],
    devices: &[CamxptDevice],
    lanes: &[u32],
    limits: &CamxptLimits,
) -> i32
    ensures { IsOpening (linked_topology weights.now links.now adapters.now devices.now lanes.now) (bounds_of limits.now) handle.old.body.kept handle.new.body.kept result }
{
    if let Some(port) = handle.take(alloc) {
        handle.put(port);
        return E_OPEN;
    }
    let Some(limits) = limits_in(limits) else {
        return E_LIMIT;
    };
    match linked_config(alloc, weights, links, adapters, devices, lanes) {
        Ok(config) => keep(handle, boxed(alloc, config, limits)),
        Err(code) => code,
    }
}

/// The limits, if each is in its range.
pub(crate) fn limits_in(limits: &CamxptLimits) -> Option<Limits>
    ensures { result ≡ limits_in (bounds_of limits.now) }
{
    match Limits::new(limits.ccbs, limits.rounds, limits.stays, limits.events) {
        Ok(limits) => Some(limits),
        Err(_) => None,
    }
}

fn plain_config(
    alloc: Global,
    adapters: &[u32],
    devices: &[CamxptDevice],
    lanes: &[u32],
) -> Result<Config, i32>
    ensures { IsConfigOf (plain_topology adapters.now devices.now lanes.now) result }
{
    let Ok(devices) = devices_of(alloc, devices) else {
        return Err(E_MEMORY);
    };
    match Config::new(alloc, adapters, &devices, lanes) {
        Ok(config) => Ok(config),
        Err(error) => Err(error_code(error)),
    }
}

/// The configuration of these lists.
pub(crate) fn linked_config(
    alloc: Global,
    weights: &[CamxptWeight],
    links: &[u32],
    adapters: &[CamxptAdapter],
    devices: &[CamxptDevice],
    lanes: &[u32],
) -> Result<Config, i32>
    ensures { IsConfigOf (linked_topology weights.now links.now adapters.now devices.now lanes.now) result }
{
    let Ok(weights) = weights_of(alloc, weights) else {
        return Err(E_MEMORY);
    };
    let Ok(adapters) = adapters_of(alloc, adapters) else {
        return Err(E_MEMORY);
    };
    let Ok(devices) = devices_of(alloc, devices) else {
        return Err(E_MEMORY);
    };
    match Config::with_links(alloc, &weights, links, &adapters, &devices, lanes) {
        Ok(config) => Ok(config),
        Err(error) => Err(error_code(error)),
    }
}

// The number of the rule that is broken, or of want of memory.
fn error_code(error: ConfigError) -> i32
    ensures { result ≡ error_code error }
{
    match error {
        ConfigError::Fault(fault) => fault_code(fault),
        ConfigError::OutOfMemory => E_MEMORY,
    }
}

// A port in a box.
fn boxed(alloc: Global, config: Config, limits: Limits) -> Result<Box<Port>, i32>
    ensures ok { IfOk result (λ made. made.value ≡ opened_port config limits) }
    ensures err { IfErr result (λ code. code ≡ E_MEMORY) }
{
    let Ok(port) = Port::open(alloc, config, limits) else {
        return Err(E_MEMORY);
    };
    match Box::new(alloc, port) {
        Ok(made) => Ok(made),
        Err(_) => Err(E_MEMORY),
    }
}

// Puts what was made into the handle.
fn keep(handle: &mut CamXpt, made: Result<Box<Port>, i32>) -> i32
    ensures { MatchResult made
        (λ port. (result ≡ OK) × (handle.new.body.kept ≡ Some port.value))
        (λ code. (result ≡ code) × (handle.new.body.kept ≡ handle.old.body.kept)) }
{
    match made {
        Ok(port) => {
            handle.put(port);
            OK
        }
        Err(code) => code,
    }
}
