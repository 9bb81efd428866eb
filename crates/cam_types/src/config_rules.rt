//! The rules of a configuration's items, each tested beside the items before it.

ghost use Rattle.std.specs.Prelude.{◌≡◌, ℕ, ◌==◌, List, length, count_by, map};
ghost use Rattle.cam_types.specs.Topology.{unlinked, are_openings, openings_fault, names_link, is_same_address, link_fault, adapter_fault, address_fault, device_fault, lane_fault, weight_lack, adapter_lack, lack, config_fault, Adapter};
ghost use Rattle.cam_types.specs.Weights.{is_behind, is_weight, reaches_last, weight_fault};
ghost use Rattle.cam_types.specs.Lists.{prefixed, first_answer};
ghost use Rattle.std.specs.List.{list_any};

use crate::adapter::Adapter;
use crate::config_fault::ConfigFault;
use crate::device::Device;
use crate::limits::{
    MAX_ADAPTERS, MAX_DEVICES, MAX_LANES, MAX_LINKS, MAX_LUN, MAX_OPENINGS, MAX_PRIORITY,
    MAX_WEIGHT, MAX_WEIGHT_ROWS,
};
use crate::weight_row::WeightRow;

/// The rule that a row of the table of weights breaks, after those before it.
#[tactic(auto, unfolding(crate::specs::Weights::weight_fault))]
pub fn weight_fault(before: &[WeightRow], row: WeightRow) -> Option<ConfigFault>
    ensures { result ≡ weight_fault (before.now, row) }
{
    let is_due = before.len() < MAX_WEIGHT_ROWS
        && is_behind(before, row)
        && row.last <= MAX_PRIORITY
        && is_weight(row.weight);
    if is_due {
        None
    } else {
        Some(ConfigFault::BadWeight)
    }
}

fn is_behind(before: &[WeightRow], row: WeightRow) -> bool
    ensures { result ≡ is_behind before.now row }
{
    before.iter().all(|other| other.last < row.last)
}

fn is_weight(weight: u32) -> bool
    ensures { result ≡ is_weight weight }
{
    1 <= weight && weight <= MAX_WEIGHT
}

/// Whether a table of weights reaches the last priority.
pub fn reaches_last(weights: &[WeightRow]) -> bool
    ensures { result ≡ reaches_last weights.now }
{
    weights.iter().any(|row| row.last == MAX_PRIORITY)
}

/// What a configuration of such a table and that many adapters lacks.
pub fn lack(weights: &[WeightRow], adapters: usize) -> Option<ConfigFault>
    ensures { result ≡ lack weights.now adapters }
{
    weight_lack(weights).or(adapter_lack(adapters))
}

fn weight_lack(weights: &[WeightRow]) -> Option<ConfigFault>
    ensures { result ≡ weight_lack weights.now }
{
    if reaches_last(weights) {
        None
    } else {
        Some(ConfigFault::BadWeight)
    }
}

fn adapter_lack(adapters: usize) -> Option<ConfigFault>
    ensures { result ≡ adapter_lack adapters }
{
    if adapters == 0 {
        Some(ConfigFault::NoAdapters)
    } else {
        None
    }
}

/// The first rule that an item of these openings breaks, after that many others, where there may be that many.
pub fn openings_fault(most: usize, before: usize, openings: u32) -> Option<ConfigFault>
    ensures { result ≡ openings_fault most before openings }
{
    if before >= most {
        Some(ConfigFault::TooMany)
    } else if !are_openings(openings) {
        Some(ConfigFault::BadOpenings)
    } else {
        None
    }
}

/// The first rule that a link of these openings breaks, after those before it.
#[tactic(auto, unfolding(crate::specs::Topology::link_fault))]
pub fn link_fault(before: &[u32], openings: u32) -> Option<ConfigFault>
    ensures { result ≡ link_fault (before.now, openings) }
{
    openings_fault(MAX_LINKS, before.len(), openings)
}

/// The first rule that an adapter breaks, after those before it, where there are that many links.
#[tactic(auto, unfolding(crate::specs::Topology::adapter_fault))]
pub fn adapter_fault(links: usize, before: &[Adapter], adapter: Adapter) -> Option<ConfigFault>
    ensures { result ≡ adapter_fault links (before.now, adapter) }
{
    let link_fault = if names_link(links, adapter.link) {
        None
    } else {
        Some(ConfigFault::NoLink)
    };
    openings_fault(MAX_ADAPTERS, before.len(), adapter.openings).or(link_fault)
}

// Whether an adapter is on no link, or on one of that many.
fn names_link(links: usize, link: Option<u32>) -> bool
    ensures { result ≡ names_link links link }
{
    match link {
        Some(link) => (link as usize) < links,
        None => true,
    }
}

/// The first rule that the device breaks, after those before it, where there are that many adapters.
#[tactic(auto, unfolding(crate::specs::Topology::device_fault))]
pub fn device_fault(adapters: usize, before: &[Device], device: Device) -> Option<ConfigFault>
    ensures { result ≡ device_fault adapters (before.now, device) }
{
    if before.len() >= MAX_DEVICES {
        Some(ConfigFault::TooMany)
    } else if !are_openings(device.openings) {
        Some(ConfigFault::BadOpenings)
    } else {
        address_fault(adapters, before, device)
    }
}

// The first rule that the device's address breaks, after the devices before it.
#[tactic(auto, unfolding(crate::specs::Topology::address_fault))]
fn address_fault(adapters: usize, before: &[Device], device: Device) -> Option<ConfigFault>
    ensures { result ≡ address_fault adapters (before.now, device) }
{
    if usize::from(device.bus) >= adapters {
        Some(ConfigFault::NoAdapter)
    } else if device.lun > MAX_LUN {
        Some(ConfigFault::BadAddress)
    } else if has_address(before, device) {
        Some(ConfigFault::DoubleDevice)
    } else {
        None
    }
}

/// The first rule that a lane on this adapter breaks, after those before it, where there are that many adapters.
#[tactic(auto, unfolding(crate::specs::Topology::lane_fault))]
pub fn lane_fault(adapters: usize, before: &[u32], adapter: u32) -> Option<ConfigFault>
    ensures { result ≡ lane_fault adapters (before.now, adapter) }
{
    if lanes_of(before, adapter) >= MAX_LANES {
        Some(ConfigFault::TooMany)
    } else if adapter as usize >= adapters {
        Some(ConfigFault::NoAdapter)
    } else {
        None
    }
}

fn lanes_of(lanes: &[u32], adapter: u32) -> usize
    ensures { result ≡ count_by (λ a. a == adapter) lanes.now }
{
    lanes.iter().filter(|other| **other == adapter).count()
}

/// Whether a device, an adapter or a link may have that many openings: 1 to 255.
pub fn are_openings(openings: u32) -> bool
    ensures { result ≡ are_openings openings }
{
    0 < openings && openings <= MAX_OPENINGS
}

// Whether a device before has this device's address.
fn has_address(before: &[Device], device: Device) -> bool
    ensures { result ≡ list_any (is_same_address device) before.now }
{
    before.iter().any(|other| is_same_address(device, *other))
}

fn is_same_address(one: Device, other: Device) -> bool
    ensures { result ≡ is_same_address one other }
{
    one.bus == other.bus && one.target == other.target && one.lun == other.lun
}

// The first rule that one of the rows breaks.
fn weights_fault(weights: &[WeightRow]) -> Option<ConfigFault>
    ensures { result ≡ first_answer weight_fault (prefixed weights.now) }
{
    for (i, row) in weights.iter().enumerate() {
        let fault = weight_fault(&weights[..i], *row);
        if fault.is_some() {
            return fault;
        }
    }
    None
}

// The first rule that one of some items of these openings breaks, of which there may be that many.
fn openings_faults(most: usize, items: &[u32]) -> Option<ConfigFault>
    ensures { result ≡ first_answer (λ (m : List ℕ × ℕ). openings_fault most (length m.0) m.1) (prefixed items.now) }
{
    for (i, openings) in items.iter().enumerate() {
        let fault = openings_fault(most, i, *openings);
        if fault.is_some() {
            return fault;
        }
    }
    None
}

// The first rule that one of the links breaks.
fn links_fault(links: &[u32]) -> Option<ConfigFault>
    ensures { result ≡ first_answer link_fault (prefixed links.now) }
{
    openings_faults(MAX_LINKS, links)
}

/// The first rule that one of some adapters of these openings breaks, each on no link.
pub fn unlinked_fault(adapters: &[u32]) -> Option<ConfigFault>
    ensures { result ≡ first_answer (adapter_fault 0) (prefixed (map unlinked adapters.now)) }
{
    openings_faults(MAX_ADAPTERS, adapters)
}

/// The first rule that one of the adapters breaks, where there are that many links.
pub fn adapters_fault(links: usize, adapters: &[Adapter]) -> Option<ConfigFault>
    ensures { result ≡ first_answer (adapter_fault links) (prefixed adapters.now) }
{
    for (i, adapter) in adapters.iter().enumerate() {
        let fault = adapter_fault(links, &adapters[..i], *adapter);
        if fault.is_some() {
            return fault;
        }
    }
    None
}

// The first rule that one of the devices breaks.
fn devices_fault(adapters: usize, devices: &[Device]) -> Option<ConfigFault>
    ensures { result ≡ first_answer (device_fault adapters) (prefixed devices.now) }
{
    for (i, device) in devices.iter().enumerate() {
        let fault = device_fault(adapters, &devices[..i], *device);
        if fault.is_some() {
            return fault;
        }
    }
    None
}

// The first rule that one of the lanes breaks.
fn lanes_fault(adapters: usize, lanes: &[u32]) -> Option<ConfigFault>
    ensures { result ≡ first_answer (lane_fault adapters) (prefixed lanes.now) }
{
    for (i, adapter) in lanes.iter().enumerate() {
        let fault = lane_fault(adapters, &lanes[..i], *adapter);
        if fault.is_some() {
            return fault;
        }
    }
    None
}

/// The first rule that is broken, if this is the first that one of that many adapters breaks.
#[tactic(auto, unfolding(crate::specs::Topology::unit_fault))]
pub fn config_fault(
    weights: &[WeightRow],
    links: &[u32],
    adapters: usize,
    adapters_fault: Option<ConfigFault>,
    devices: &[Device],
    lanes: &[u32],
) -> Option<ConfigFault>
    ensures { (list : List Adapter) → length list ≡ adapters → first_answer (adapter_fault (length links.now)) (prefixed list) ≡ adapters_fault →
        result ≡ config_fault (record { weights = weights.now; links = links.now; adapters = list; devices = devices.now; lanes = lanes.now }) }
{
    weights_fault(weights)
        .or(weight_lack(weights))
        .or(links_fault(links))
        .or(adapter_lack(adapters))
        .or(adapters_fault)
        .or(devices_fault(adapters, devices))
        .or(lanes_fault(adapters, lanes))
}
