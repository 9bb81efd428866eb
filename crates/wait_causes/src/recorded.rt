//! Why the stays of a recording waited.

use crate::sends::{Sends, sends_at};
use cam_types::Config;
use recording_file::{Name, Recording, Span};
use round_net::{Net, WaitCause, cell};
use std::alloc::{AllocError, Global};
use std::marker::Model;

/// A recording, and what held up each device in each round.
#[derive(Drop)]
pub struct RecordedRounds {
    recording: Recording,
    causes: Vec<WaitCause>,
}

impl Model for RecordedRounds {
    ghost use Rattle.recording_file.specs.Recorded.{Recorded};
    ghost use Rattle.wait_causes.specs.RecordedRounds.{AreRecordedCauses};

    ghost Value = { Recorded };

    ghost view = { λ x. x.recording };

    ghost invariant = { λ x. AreRecordedCauses x.recording x.causes.items };
}

impl RecordedRounds {
    ghost use Rattle.std.specs.Prelude.{◌≡◌, ◌<◌, ◌≤◌, IfOk};
    ghost use Rattle.round_net.specs.Rows.{instance_of_rows, live_of_rows};
    ghost use Rattle.round_net.specs.RecordedNets.{net_of_recording, instance_of_recording, live_of_recording};
    ghost use Rattle.wait_causes.specs.RecordedCauses.{recorded_cause};
    ghost use Rattle.wait_causes.specs.Sends.{AreSends};

    /// Those of a recording, by its net and what the net's rows sent.
    pub(crate) fn of(
        alloc: Global,
        recording: Recording,
        net: &Net,
        sends: &[Sends],
    ) -> Result<RecordedRounds, AllocError>
        requires net { net.now ≡ net_of_recording recording }
        requires sends { AreSends (instance_of_rows net.now) (live_of_rows net.now) (instance_of_rows net.now).stays sends.now }
        ensures { IfOk result (λ x. x ≡ recording) }
    {
        let causes = causes_of(alloc, net, sends)?;
        Ok(RecordedRounds { recording, causes })
    }

    /// What held up the device in the round.
    pub(crate) fn cause(&self, device: u32, round: u32) -> WaitCause
        requires device { device < (instance_of_recording self.now).devices }
        requires first { 1 ≤ round }
        requires last { round ≤ (instance_of_recording self.now).rounds }
        ensures { result ≡ recorded_cause (instance_of_recording self.now) (live_of_recording self.now) device round }
    {
        cause_at(&self.causes, cell(self.recording.rounds(), device, round))
    }

    /// The recording's configuration.
    pub(crate) fn config(&self) -> &Config
        ensures { result.now ≡ self.now.config }
    {
        self.recording.config()
    }

    /// The recording's names.
    pub(crate) fn names(&self) -> &[Name]
        ensures { result.now ≡ self.now.names }
    {
        self.recording.names()
    }

    /// Whether the recording says when requests were completed.
    pub(crate) fn completions(&self) -> bool
        ensures { result ≡ self.now.completions }
    {
        self.recording.completions()
    }

    /// How long the recording's rounds are, if that is known.
    pub(crate) fn unit(&self) -> Option<Span>
        ensures { result ≡ self.now.unit }
    {
        self.recording.unit()
    }
}

ghost use Rattle.std.specs.Prelude.{◌≡◌, ◌<◌, ◌≤◌, unwrap_or, slice_get, IfOk};
ghost use Rattle.std.specs.List.{list_any};
ghost use Rattle.wait_causes.specs.Words.{NotAsked};
ghost use Rattle.round_net.specs.Rows.{instance_of_rows, live_of_rows};
ghost use Rattle.round_net.specs.Instance.{rows, link_rows};
ghost use Rattle.wait_causes.specs.RecordedCauses.{recorded_cause, is_stopped, is_used_up};
ghost use Rattle.wait_causes.specs.RecordedRounds.{causes_by};
ghost use Rattle.wait_causes.specs.Sends.{AreSends};

// The cause at a place.
fn cause_at(causes: &[WaitCause], at: usize) -> WaitCause
    ensures { result ≡ unwrap_or (slice_get causes.now at) NotAsked }
{
    causes.get(at).copied().unwrap_or(WaitCause::NotAsked)
}

// What held up each device in each round: all rounds of the first device, then those of the second one, and so on.
#[tactic(auto, unfolding(crate::specs::RecordedRounds::causes_by))]
fn causes_of(alloc: Global, net: &Net, sends: &[Sends]) -> Result<Vec<WaitCause>, AllocError>
    requires sends { AreSends (instance_of_rows net.now) (live_of_rows net.now) (instance_of_rows net.now).stays sends.now }
    ensures { let n = instance_of_rows net.now in IfOk result (λ causes. causes.items ≡ causes_by n.devices n.rounds (recorded_cause n (live_of_rows net.now))) }
{
    let rounds = net.rounds();
    let places = net.devices() * rounds;
    let mut causes = Vec::with_capacity(alloc, places as usize)?;
    for at in 0..places {
        causes.push(cause_in(net, sends, at / rounds, at % rounds + 1))?;
    }
    Ok(causes)
}

// What held up the device in the round.
#[tactic(auto, unfolding(crate::specs::RecordedCauses::recorded_cause))]
fn cause_in(net: &Net, sends: &[Sends], device: u32, round: u32) -> WaitCause
    requires device { device < (instance_of_rows net.now).devices }
    requires first { 1 ≤ round }
    requires last { round ≤ (instance_of_rows net.now).rounds }
    requires sends { AreSends (instance_of_rows net.now) (live_of_rows net.now) (instance_of_rows net.now).stays sends.now }
    ensures { result ≡ recorded_cause (instance_of_rows net.now) (live_of_rows net.now) device round }
{
    let adapter = net.adapter_resource(net.adapter_of(device));
    if is_stopped(net, device, round) {
        WaitCause::DeviceStopped
    } else if is_stopped(net, adapter, round) {
        WaitCause::AdapterStopped
    } else if is_link_stopped(net, device, round) {
        WaitCause::LinkStopped
    } else if is_used_up(net, sends, device, round) {
        WaitCause::DeviceFull
    } else if is_used_up(net, sends, adapter, round) {
        WaitCause::AdapterFull
    } else if is_link_used_up(net, sends, device, round) {
        WaitCause::LinkFull
    } else {
        WaitCause::NotAsked
    }
}

// Whether the row takes nothing in the round.
fn is_stopped(net: &Net, row: u32, round: u32) -> bool
    requires row { row < rows (instance_of_rows net.now) }
    requires first { 1 ≤ round }
    requires last { round ≤ (instance_of_rows net.now).rounds }
    ensures { result ≡ is_stopped (instance_of_rows net.now) round row }
{
    net.cap(row, round) == 0
}

// Whether the device's adapter is on a link that takes nothing in the round.
fn is_link_stopped(net: &Net, device: u32, round: u32) -> bool
    requires device { device < (instance_of_rows net.now).devices }
    requires first { 1 ≤ round }
    requires last { round ≤ (instance_of_rows net.now).rounds }
    ensures { let n = instance_of_rows net.now in result ≡ list_any (is_stopped n round) (link_rows n (n.adapter_of device)) }
{
    match net.link_of(net.adapter_of(device)) {
        Some(link) => is_stopped(net, net.link_resource(link), round),
        None => false,
    }
}

// Whether as many of the row's were sent in the round as it takes.
#[tactic(auto, using(crate::proofs::SendsLemmas::count_is_load))]
fn is_used_up(net: &Net, sends: &[Sends], row: u32, round: u32) -> bool
    requires row { row < rows (instance_of_rows net.now) }
    requires first { 1 ≤ round }
    requires last { round ≤ (instance_of_rows net.now).rounds }
    requires sends { AreSends (instance_of_rows net.now) (live_of_rows net.now) (instance_of_rows net.now).stays sends.now }
    ensures { result ≡ is_used_up (instance_of_rows net.now) (live_of_rows net.now) round row }
{
    sends_at(net, sends, row, round).count == net.cap(row, round)
}

// Whether the device's adapter is on a link over which as many were sent in the round as it takes.
fn is_link_used_up(net: &Net, sends: &[Sends], device: u32, round: u32) -> bool
    requires device { device < (instance_of_rows net.now).devices }
    requires first { 1 ≤ round }
    requires last { round ≤ (instance_of_rows net.now).rounds }
    requires sends { AreSends (instance_of_rows net.now) (live_of_rows net.now) (instance_of_rows net.now).stays sends.now }
    ensures { let n = instance_of_rows net.now in result ≡ list_any (is_used_up n (live_of_rows net.now) round) (link_rows n (n.adapter_of device)) }
{
    match net.link_of(net.adapter_of(device)) {
        Some(link) => is_used_up(net, sends, net.link_resource(link), round),
        None => false,
    }
}
