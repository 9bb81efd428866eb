//! Nets: that of a complete history, and that of a recording.

mod other_caps;

use crate::flat::cell;
use crate::net_fault::NetFault;
use crate::price_range::{MAX_NET_PRICE, MAX_PRICE};
use crate::recorded_rows::{request_rows, resource_caps};
use crate::round_table::RoundTable;
use crate::stay_row::StayRow;
use crate::stay_rows::{adapters_of, links_of, stay_rows};
use cam_event::History;
use cam_types::Config;
use event_rules::Stay;
use recording_file::Recording;
use std::alloc::{AllocError, Global};
use std::marker::Model;

/// What there was to plan: stays with windows and weights, and caps.
///
/// Stays, devices, adapters and links are numbered from 0, rounds from 1. There is a row for each device, after these one
/// for each adapter, and after these one for each link. Each number that a call takes has to be within the net.
#[derive(Debug)]
pub struct Net {
    config: Config,
    commands: u32,
    rounds: u32,
    links: u32,
    adapter_of: Vec<u32>,
    link_of: Vec<Option<u32>>,
    stays: Vec<StayRow>,
    caps: Vec<u32>,
    max_price: u64,
}

// By hand, so that to its owners a net that ends is one call and not each of its fields.
impl Drop for Net {
    fn drop(self) {
        let Net {
            config: _,
            commands: _,
            rounds: _,
            links: _,
            adapter_of: _,
            link_of: _,
            stays: _,
            caps: _,
            max_price: _,
        } = self;
    }
}

impl Model for Net {
    ghost use Rattle.round_net.specs.Rows.{NetRows};
    ghost use Rattle.round_net.specs.Sound.{IsNet};

    ghost Value = { NetRows };

    ghost view = { λ n. record { config = n.config; commands = n.commands; rounds = n.rounds; links = n.links; adapter_of = n.adapter_of.items; link_of = n.link_of.items; stays = n.stays.items; caps = n.caps.items; max_price = n.max_price } };

    ghost invariant = { λ n. IsNet (record { config = n.config; commands = n.commands; rounds = n.rounds; links = n.links; adapter_of = n.adapter_of.items; link_of = n.link_of.items; stays = n.stays.items; caps = n.caps.items; max_price = n.max_price }) };
}

impl Net {
    ghost use Rattle.std.specs.Prelude.{◌≡◌, ◌+◌, ◌*◌, ◌<◌, ◌≤◌, Some, length, slice_get};
    ghost use Rattle.cam_types.specs.Topology.{IsConfig};
    ghost use Rattle.cam_types.specs.declared.limits.TheConstants.{MAX_WEIGHT};
    ghost use Rattle.round_net.specs.declared.limits.TheConstants.{MAX_NET_ROUNDS, MAX_CAP};
    ghost use Rattle.round_net.specs.Instance.{rows, adapter, link, adapter_resource, link_resource};
    ghost use Rattle.round_net.specs.Rows.{instance_of_rows, live_of_rows, names_of_rows};
    ghost use Rattle.round_net.specs.Sound.{IsSound, IsWithinHistory};
    ghost use Rattle.std.specs.Prelude.{IfOk, IfSome, MatchOption, IsOkUnless};
    ghost use Rattle.event_rules.specs.Stays.{unsent};
    ghost use Rattle.round_net.specs.Nets.{net_of, instance_of, live_of};
    ghost use Rattle.round_net.specs.RecordedNets.{net_of_recording, instance_of_recording, live_of_recording};
    ghost use Rattle.round_net.specs.Schedules.{IsAdmissible};

    /// The net of a history in which each stay was sent. Where one wasn't, the first of these in creation order is named.
    pub fn of(alloc: Global, history: &History) -> Result<Net, NetFault>
        ensures answer { MatchOption (unsent history.now.events)
            (IsOkUnless result NetFault.OutOfMemory)
            (λ stay. result ≡ Err (NetFault.Unsent stay)) }
        ensures net { IfOk result (λ net. net ≡ net_of history.now.config history.now.events) }

        // Each stay was sent within its window, and no row was sent more than it takes.
        ensures live { IfOk result (λ _. IsAdmissible (instance_of history.now.config history.now.events) (live_of history.now.config history.now.events)) }
        ensures small { IfOk result (λ _. IsWithinHistory (instance_of history.now.config history.now.events)) }
    {
        let table = match history.unsent() {
            Some(stay) => return Err(NetFault::Unsent(stay)),
            None => RoundTable::of(alloc, history)?,
        };
        Net::of_rounds(alloc, history, &table)
    }

    /// The same where the history's table of rounds is at hand.
    pub fn of_rounds(alloc: Global, history: &History, table: &RoundTable) -> Result<Net, NetFault>
        requires { table.now ≡ history.now }
        ensures answer { MatchOption (unsent history.now.events)
            (IsOkUnless result NetFault.OutOfMemory)
            (λ stay. result ≡ Err (NetFault.Unsent stay)) }
        ensures net { IfOk result (λ net. net ≡ net_of history.now.config history.now.events) }
        ensures live { IfOk result (λ _. IsAdmissible (instance_of history.now.config history.now.events) (live_of history.now.config history.now.events)) }
        ensures small { IfOk result (λ _. IsWithinHistory (instance_of history.now.config history.now.events)) }
    {
        if let Some(stay) = history.unsent() {
            return Err(NetFault::Unsent(stay));
        }
        let _events = history.events();
        let config = history.config();
        let rounds = history.round();
        Ok(Net {
            config: config.copy(alloc)?,
            commands: history.commands(),
            rounds,
            links: config.links().len() as u32,
            adapter_of: adapters_of(alloc, config.devices())?,
            link_of: links_of(alloc, config.adapters())?,
            stays: stay_rows(alloc, config, history.stays(), rounds)?,
            caps: table.caps(alloc)?,
            max_price: MAX_PRICE,
        })
    }

    /// The net of a recording. No opening is worth more than `MAX_NET_PRICE`. It fails only if there is no memory.
    pub fn of_recording(alloc: Global, recording: &Recording) -> Result<Net, AllocError>
        ensures net { IfOk result (λ net. net ≡ net_of_recording recording.now) }

        // Each request was started within its window, and no device, adapter or link took more than it takes.
        ensures live { IfOk result (λ _. IsAdmissible (instance_of_recording recording.now) (live_of_recording recording.now)) }
    {
        let config = recording.config();
        let rounds = recording.rounds();
        Ok(Net {
            config: config.copy(alloc)?,
            commands: recording.requests().len() as u32,
            rounds,
            links: config.links().len() as u32,
            adapter_of: adapters_of(alloc, config.devices())?,
            link_of: links_of(alloc, config.adapters())?,
            stays: request_rows(alloc, recording)?,
            caps: resource_caps(alloc, recording)?,
            max_price: MAX_NET_PRICE,
        })
    }

    /// The weights, links, adapters and devices.
    pub fn config(&self) -> &Config
        ensures same { result.now ≡ self.now.config }
        ensures kept { IsConfig self.now.config }
    {
        let _devices = self.config.devices();
        &self.config
    }

    /// How many commands the stays are of.
    pub fn commands(&self) -> u32
        ensures { result ≡ self.now.commands }
    {
        self.commands
    }

    /// How many rounds there are, at least 1 and at most `MAX_NET_ROUNDS`.
    #[tactic(auto, unfolding(crate::specs::Rows::instance_of_rows))]
    pub fn rounds(&self) -> u32
        ensures same { result ≡ (instance_of_rows self.now).rounds }
        ensures sound { IsSound (instance_of_rows self.now) (live_of_rows self.now) }
    {
        self.rounds
    }

    /// How many stays there are, at most `MAX_NET_STAYS`.
    #[tactic(auto, unfolding(crate::specs::Rows::instance_of_rows))]
    pub fn stays(&self) -> u32
        ensures same { result ≡ (instance_of_rows self.now).stays }
        ensures sound { IsSound (instance_of_rows self.now) (live_of_rows self.now) }
    {
        self.stays.len() as u32
    }

    /// How many devices there are, at most `MAX_DEVICES`.
    #[tactic(auto, unfolding(crate::specs::Rows::instance_of_rows))]
    pub fn devices(&self) -> u32
        ensures same { result ≡ (instance_of_rows self.now).devices }
        ensures sound { IsSound (instance_of_rows self.now) (live_of_rows self.now) }
    {
        self.adapter_of.len() as u32
    }

    /// How many adapters there are, at most `MAX_ADAPTERS`.
    #[tactic(auto, unfolding(crate::specs::Rows::instance_of_rows))]
    pub fn adapters(&self) -> u32
        ensures same { result ≡ (instance_of_rows self.now).adapters }
        ensures sound { IsSound (instance_of_rows self.now) (live_of_rows self.now) }
    {
        self.link_of.len() as u32
    }

    /// How many links there are, at most `MAX_LINKS`.
    #[tactic(auto, unfolding(crate::specs::Rows::instance_of_rows))]
    pub fn links(&self) -> u32
        ensures same { result ≡ (instance_of_rows self.now).links }
        ensures sound { IsSound (instance_of_rows self.now) (live_of_rows self.now) }
    {
        self.links
    }

    /// How many rows there are: one for each device, after these one for each adapter, and after these one for each link.
    #[tactic(auto, unfolding(crate::specs::Rows::instance_of_rows))]
    pub fn rows(&self) -> u32
        ensures same { result ≡ rows (instance_of_rows self.now) }
        ensures sound { IsSound (instance_of_rows self.now) (live_of_rows self.now) }
    {
        self.devices() + self.adapters() + self.links()
    }

    /// How many pairs there are of a row with a round.
    #[tactic(auto, unfolding(crate::specs::Rows::instance_of_rows))]
    pub fn cells(&self) -> usize
        ensures { let net = instance_of_rows self.now in result ≡ rows net * net.rounds }
    {
        self.caps.len()
    }

    /// The most that one opening may be worth: `MAX_PRICE` in a history's net, and at most `MAX_NET_PRICE` in any.
    #[tactic(auto, unfolding(crate::specs::Rows::instance_of_rows))]
    pub fn max_price(&self) -> u64
        ensures same { result ≡ (instance_of_rows self.now).max_price }
        ensures sound { IsSound (instance_of_rows self.now) (live_of_rows self.now) }
    {
        self.max_price
    }

    // The row of the stay of this number.
    fn stay_row(&self, stay: u32) -> StayRow
        requires { stay < length self.now.stays }
        ensures same { slice_get self.now.stays stay ≡ Some result }
        ensures sound { IsSound (instance_of_rows self.now) (live_of_rows self.now) }
    {
        self.stays[stay as usize]
    }

    /// The stay of this number, in creation order.
    #[tactic(auto, unfolding(crate::specs::Rows::instance_of_rows, crate::specs::Rows::names_of_rows))]
    pub fn stay(&self, stay: u32) -> Stay
        requires { stay < (instance_of_rows self.now).stays }
        ensures { slice_get (names_of_rows self.now) stay ≡ Some result }
    {
        self.stay_row(stay).stay
    }

    /// The number of the stay's device.
    #[tactic(auto, unfolding(crate::specs::Rows::instance_of_rows))]
    pub fn device(&self, stay: u32) -> u32
        requires { stay < (instance_of_rows self.now).stays }
        ensures same { result ≡ (instance_of_rows self.now).device stay }
        ensures within { result < (instance_of_rows self.now).devices }
    {
        self.stay_row(stay).device
    }

    /// The number of the adapter of the stay's device.
    #[tactic(auto, unfolding(crate::specs::Rows::instance_of_rows))]
    pub fn adapter(&self, stay: u32) -> u32
        requires { stay < (instance_of_rows self.now).stays }
        ensures same { result ≡ adapter (instance_of_rows self.now) stay }
        ensures within { result < (instance_of_rows self.now).adapters }
    {
        self.adapter_of(self.device(stay))
    }

    /// The number of the device's adapter.
    #[tactic(auto, unfolding(crate::specs::Rows::instance_of_rows))]
    pub fn adapter_of(&self, device: u32) -> u32
        requires { device < (instance_of_rows self.now).devices }
        ensures same { result ≡ (instance_of_rows self.now).adapter_of device }
        ensures within { result < (instance_of_rows self.now).adapters }
    {
        self.adapter_of[device as usize]
    }

    /// The number of the link that the adapter is on, if it is on one.
    #[tactic(auto, unfolding(crate::specs::Rows::instance_of_rows))]
    pub fn link_of(&self, adapter: u32) -> Option<u32>
        requires { adapter < (instance_of_rows self.now).adapters }
        ensures same { result ≡ (instance_of_rows self.now).link_of adapter }
        ensures within { IfSome result (λ link. link < (instance_of_rows self.now).links) }
    {
        self.link_of[adapter as usize]
    }

    /// The number of the link of the stay's adapter, if that is on one.
    #[tactic(auto, unfolding(crate::specs::Rows::instance_of_rows))]
    pub fn link(&self, stay: u32) -> Option<u32>
        requires { stay < (instance_of_rows self.now).stays }
        ensures same { result ≡ link (instance_of_rows self.now) stay }
        ensures within { IfSome result (λ link. link < (instance_of_rows self.now).links) }
    {
        self.link_of(self.adapter(stay))
    }

    /// The first round in which the stay could be sent, from 1.
    #[tactic(auto, unfolding(crate::specs::Rows::instance_of_rows))]
    pub fn arrival(&self, stay: u32) -> u32
        requires { stay < (instance_of_rows self.now).stays }
        ensures same { result ≡ (instance_of_rows self.now).arrival stay }
        ensures first { 1 ≤ result }
    {
        self.stay_row(stay).arrival
    }

    /// The last round in which the stay could be sent.
    #[tactic(auto, unfolding(crate::specs::Rows::instance_of_rows))]
    pub fn last(&self, stay: u32) -> u32
        requires { stay < (instance_of_rows self.now).stays }
        ensures same { result ≡ (instance_of_rows self.now).last stay }
        ensures within { result ≤ (instance_of_rows self.now).rounds }
        ensures most { result ≤ MAX_NET_ROUNDS }
    {
        self.stay_row(stay).last
    }

    /// What each round of the stay's waiting costs, by its priority.
    #[tactic(auto, unfolding(crate::specs::Rows::instance_of_rows))]
    pub fn weight(&self, stay: u32) -> u32
        requires { stay < (instance_of_rows self.now).stays }
        ensures same { result ≡ (instance_of_rows self.now).weight stay }
        ensures some { 1 ≤ result }
        ensures most { result ≤ MAX_WEIGHT }
    {
        self.stay_row(stay).weight
    }

    /// The round in which the stay was sent.
    #[tactic(auto, unfolding(crate::specs::Rows::instance_of_rows, crate::specs::Rows::live_of_rows))]
    pub fn live(&self, stay: u32) -> u32
        requires { stay < (instance_of_rows self.now).stays }
        ensures { result ≡ live_of_rows self.now stay }
    {
        self.stay_row(stay).live
    }

    /// The number of the adapter's row.
    #[tactic(auto, unfolding(crate::specs::Rows::instance_of_rows))]
    pub fn adapter_resource(&self, adapter: u32) -> u32
        requires { adapter < (instance_of_rows self.now).adapters }
        ensures same { result ≡ adapter_resource (instance_of_rows self.now) adapter }
        ensures within { result < rows (instance_of_rows self.now) }
    {
        self.devices() + adapter
    }

    /// The number of the link's row.
    #[tactic(auto, unfolding(crate::specs::Rows::instance_of_rows))]
    pub fn link_resource(&self, link: u32) -> u32
        requires { link < (instance_of_rows self.now).links }
        ensures same { result ≡ link_resource (instance_of_rows self.now) link }
        ensures within { result < rows (instance_of_rows self.now) }
    {
        self.devices() + self.adapters() + link
    }

    /// How many commands the row takes in the round.
    #[tactic(auto, unfolding(crate::specs::Rows::instance_of_rows))]
    pub fn cap(&self, row: u32, round: u32) -> u32
        requires row { row < rows (instance_of_rows self.now) }
        requires first { 1 ≤ round }
        requires last { round ≤ (instance_of_rows self.now).rounds }
        ensures same { result ≡ (instance_of_rows self.now).cap row round }
        ensures most { result ≤ MAX_CAP }
    {
        self.caps[cell(self.rounds, row, round)]
    }

    /// How many commands the device takes in the round.
    pub fn dev_cap(&self, device: u32, round: u32) -> u32
        requires device { device < (instance_of_rows self.now).devices }
        requires first { 1 ≤ round }
        requires last { round ≤ (instance_of_rows self.now).rounds }
        ensures same { result ≡ (instance_of_rows self.now).cap device round }
        ensures most { result ≤ MAX_CAP }
    {
        self.cap(device, round)
    }

    /// How many commands the adapter takes in the round.
    pub fn sim_cap(&self, adapter: u32, round: u32) -> u32
        requires adapter { adapter < (instance_of_rows self.now).adapters }
        requires first { 1 ≤ round }
        requires last { round ≤ (instance_of_rows self.now).rounds }
        ensures same { let n = instance_of_rows self.now in result ≡ n.cap (adapter_resource n adapter) round }
        ensures most { result ≤ MAX_CAP }
    {
        self.cap(self.adapter_resource(adapter), round)
    }

    /// How many commands the link takes in the round.
    pub fn link_cap(&self, link: u32, round: u32) -> u32
        requires link { link < (instance_of_rows self.now).links }
        requires first { 1 ≤ round }
        requires last { round ≤ (instance_of_rows self.now).rounds }
        ensures same { let n = instance_of_rows self.now in result ≡ n.cap (link_resource n link) round }
        ensures most { result ≤ MAX_CAP }
    {
        self.cap(self.link_resource(link), round)
    }
}
