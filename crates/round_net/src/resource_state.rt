//! The state of a resource at a place of a history: of a device, an adapter or a link.

ghost use Rattle.std.specs.Prelude.{◌≡◌, ◌<◌, not, ◌==◌};
ghost use Rattle.event_rules.specs.Counts.{round};
ghost use Rattle.round_net.specs.Caps.{resource_count, IsResourceOf, resource_freezes, resource_openings, sends_in};

use cam_types::Config;
use xpt_core::Queues;

/// A device, an adapter or a link.
#[derive(Clone, Copy)]
pub enum Resource {
    /// The device of this number.
    Device(u32),
    /// The adapter of this number.
    Adapter(u32),
    /// The link of this number.
    Link(u32),
}

/// How many resources there are: the devices, after these the adapters, and after these the links.
pub fn resource_count(config: &Config) -> u32
    ensures { result ≡ resource_count config.now }
{
    config.devices().len() as u32 + config.adapters().len() as u32 + config.links().len() as u32
}

/// A device, an adapter or a link.
pub fn resource_of(config: &Config, row: u32) -> Resource
    requires { row < resource_count config.now }
    ensures { IsResourceOf config.now row result }
{
    let devices = config.devices().len() as u32;
    let adapters = config.adapters().len() as u32;
    if row < devices {
        Resource::Device(row)
    } else if row < devices + adapters {
        Resource::Adapter(row - devices)
    } else {
        Resource::Link(row - (devices + adapters))
    }
}

/// Whether the row is frozen.
#[tactic(auto, unfolding(crate::specs::Caps::resource_freezes), using(crate::proofs::OwnerLemmas::by_resource_device, crate::proofs::OwnerLemmas::by_resource_adapter, crate::proofs::OwnerLemmas::by_resource_link))]
pub fn is_frozen(replay: &Queues, row: u32) -> bool
    requires { row < resource_count replay.now.config }
    ensures { result ≡ not (resource_freezes replay.now.config replay.now.events row == 0) }
{
    match resource_of(replay.devices().config(), row) {
        Resource::Device(device) => replay.devices().is_frozen(device),
        Resource::Adapter(adapter) => replay.is_frozen(adapter),
        Resource::Link(_) => false,
    }
}

/// How many commands the row takes in this round.
#[tactic(auto, unfolding(crate::specs::Caps::resource_openings), using(crate::proofs::OwnerLemmas::by_resource_device, crate::proofs::OwnerLemmas::by_resource_adapter, crate::proofs::OwnerLemmas::by_resource_link))]
pub fn openings(replay: &Queues, row: u32) -> u32
    requires { row < resource_count replay.now.config }
    ensures { result ≡ resource_openings replay.now.config replay.now.events row }
{
    let config = replay.devices().config();
    match resource_of(config, row) {
        Resource::Device(device) => replay.devices().openings(device),
        Resource::Adapter(adapter) => config.adapter_openings(adapter),
        Resource::Link(link) => config.link_openings(link),
    }
}

/// How many sends of this round used an opening of the row.
#[tactic(auto, unfolding(crate::specs::Caps::sends_in), using(crate::proofs::OwnerLemmas::by_resource_device, crate::proofs::OwnerLemmas::by_resource_adapter, crate::proofs::OwnerLemmas::by_resource_link))]
pub fn sent(replay: &Queues, row: u32) -> u32
    requires { row < resource_count replay.now.config }
    ensures { result ≡ sends_in replay.now.config replay.now.events row (round replay.now.events) }
{
    match resource_of(replay.devices().config(), row) {
        Resource::Device(device) => replay.devices().sent(device),
        Resource::Adapter(adapter) => replay.sent(adapter),
        Resource::Link(link) => replay.sent_over(link),
    }
}
