//! The net at the recorded pace.

ghost use Rattle.std.specs.Prelude.{◌≡◌, ℕ, ◌+◌, ◌<◌, ◌≤◌, length, slice_index, IfOk};
ghost use Rattle.round_net.specs.Instance.{rows};
ghost use Rattle.round_net.specs.Rows.{instance_of_rows, live_of_rows};
ghost use Rattle.round_net.specs.Nets.{table};
ghost use Rattle.round_net.specs.LoadLists.{AreRounds, AreLoads};
ghost use Rattle.round_net.specs.Pace.{waiting, is_spare, has_room, pace_cap};
ghost use Rattle.round_net.specs.Sound.{IsSound};

use crate::flat::cell;
use crate::load_list::load_list;
use crate::net::Net;
use std::alloc::{AllocError, Global};

impl Net {
    ghost use Rattle.std.specs.Prelude.{◌≡◌, ℕ, IfOk};
    ghost use Rattle.round_net.specs.Rows.{instance_of_rows, live_of_rows};
    ghost use Rattle.round_net.specs.Schedules.{IsAdmissible, cost};
    ghost use Rattle.round_net.specs.Pace.{at_pace, instance_at_pace};

    /// The net at the recorded pace: in a round in which a stay of a device waits, and none of the device, its adapter and
    /// the adapter's link is full, the device takes as many commands as were sent to it. All else is as it is here. What a
    /// best schedule of it costs is what the order alone could have reached. It fails only if there is no memory.
    pub fn at_pace(&self, alloc: Global) -> Result<Net, AllocError>
        ensures net { IfOk result (λ net. net ≡ at_pace self.now) }

        // What was sent fits it, and what fits it fits this net too, at the same cost.
        ensures live { IfOk result (λ _. IsAdmissible (instance_at_pace self.now) (live_of_rows self.now)) }
        ensures within { IfOk result (λ _. (f : ℕ → ℕ) → IsAdmissible (instance_at_pace self.now) f → IsAdmissible (instance_of_rows self.now) f) }
        ensures cost { IfOk result (λ _. (f : ℕ → ℕ) → cost (instance_at_pace self.now) f ≡ cost (instance_of_rows self.now) f) }
    {
        let _rounds = self.rounds();
        let sent = load_list(alloc, self, &live_rounds(alloc, self)?)?;
        let arrived = load_list(alloc, self, &arrivals(alloc, self)?)?;
        let waiting = waiting(alloc, self, &arrived, &sent)?;
        self.with_caps(alloc, pace_caps(alloc, self, &sent, &waiting)?)
    }
}

// The round in which each stay was sent.
fn live_rounds(alloc: Global, net: &Net) -> Result<Vec<u32>, AllocError>
    ensures size { IfOk result (λ rounds. length rounds.items ≡ (instance_of_rows net.now).stays) }
    ensures each { IfOk result (λ rounds. (s : ℕ) → s < (instance_of_rows net.now).stays → slice_index rounds.items s ≡ live_of_rows net.now s) }
{
    let mut rounds = Vec::with_capacity(alloc, net.stays() as usize)?;
    for stay in 0..net.stays() {
        rounds.push(net.live(stay))?;
    }
    Ok(rounds)
}

// The round in which each stay arrived.
fn arrivals(alloc: Global, net: &Net) -> Result<Vec<u32>, AllocError>
    ensures size { IfOk result (λ rounds. length rounds.items ≡ (instance_of_rows net.now).stays) }
    ensures each { IfOk result (λ rounds. (s : ℕ) → s < (instance_of_rows net.now).stays → slice_index rounds.items s ≡ (instance_of_rows net.now).arrival s) }
{
    let mut rounds = Vec::with_capacity(alloc, net.stays() as usize)?;
    for stay in 0..net.stays() {
        rounds.push(net.arrival(stay))?;
    }
    Ok(rounds)
}

// How many stays of each device wait in each round: those that waited in the round before and those that arrived, but for
// those that were sent.
fn waiting(alloc: Global, net: &Net, arrived: &[u32], sent: &[u32]) -> Result<Vec<u32>, AllocError>
    requires arrived { let n = instance_of_rows net.now in AreLoads n n.arrival n.stays arrived.now }
    requires sent { let n = instance_of_rows net.now in AreLoads n (live_of_rows net.now) n.stays sent.now }
    ensures { let n = instance_of_rows net.now in IfOk result (λ counts. counts.items ≡ table n.devices n.rounds (waiting n (live_of_rows net.now))) }
{
    let rounds = net.rounds();
    let places = net.devices() as usize * rounds as usize;
    let mut counts = Vec::with_capacity(alloc, places)?;
    let mut count = 0;
    for at in 0..places {
        if at % rounds as usize == 0 {
            count = 0;
        }
        count = count + arrived[at] - sent[at];
        counts.push(count)?;
    }
    Ok(counts)
}

// How many commands each row takes in each round at the recorded pace.
fn pace_caps(alloc: Global, net: &Net, sent: &[u32], waits: &[u32]) -> Result<Vec<u32>, AllocError>
    requires sent { let n = instance_of_rows net.now in AreLoads n (live_of_rows net.now) n.stays sent.now }
    requires waits { let n = instance_of_rows net.now in waits.now ≡ table n.devices n.rounds (waiting n (live_of_rows net.now)) }
    ensures { let n = instance_of_rows net.now in IfOk result (λ caps. caps.items ≡ table (rows n) n.rounds (pace_cap n (live_of_rows net.now))) }
{
    let rounds = net.rounds();
    let cells = net.rows() * rounds;
    let mut caps = Vec::with_capacity(alloc, cells as usize)?;
    for at in 0..cells {
        caps.push(pace_cap(net, sent, waits, at / rounds, at % rounds + 1))?;
    }
    Ok(caps)
}

// How many commands the row takes in the round.
fn pace_cap(net: &Net, sent: &[u32], waits: &[u32], row: u32, round: u32) -> u32
    requires row { row < rows (instance_of_rows net.now) }
    requires first { 1 ≤ round }
    requires last { round ≤ (instance_of_rows net.now).rounds }
    requires sent { let n = instance_of_rows net.now in AreLoads n (live_of_rows net.now) n.stays sent.now }
    requires waits { let n = instance_of_rows net.now in waits.now ≡ table n.devices n.rounds (waiting n (live_of_rows net.now)) }
    ensures { result ≡ pace_cap (instance_of_rows net.now) (live_of_rows net.now) row round }
{
    let at = cell(net.rounds(), row, round);
    if row < net.devices() && waits[at] > 0 && has_room(net, sent, row, round) {
        sent[at]
    } else {
        net.cap(row, round)
    }
}

// Whether none of the device, its adapter and the adapter's link is full in the round.
#[tactic(auto, unfolding(crate::specs::Pace::has_room))]
fn has_room(net: &Net, sent: &[u32], device: u32, round: u32) -> bool
    requires device { device < (instance_of_rows net.now).devices }
    requires first { 1 ≤ round }
    requires last { round ≤ (instance_of_rows net.now).rounds }
    requires sent { let n = instance_of_rows net.now in AreLoads n (live_of_rows net.now) n.stays sent.now }
    ensures { result ≡ has_room (instance_of_rows net.now) (live_of_rows net.now) device round }
{
    let adapter = net.adapter_of(device);
    is_spare(net, sent, device, round)
        && is_spare(net, sent, net.adapter_resource(adapter), round)
        && match net.link_of(adapter) {
            Some(link) => is_spare(net, sent, net.link_resource(link), round),
            None => true,
        }
}

// Whether fewer of the row's were sent in the round than it takes.
fn is_spare(net: &Net, sent: &[u32], row: u32, round: u32) -> bool
    requires row { row < rows (instance_of_rows net.now) }
    requires first { 1 ≤ round }
    requires last { round ≤ (instance_of_rows net.now).rounds }
    requires sent { let n = instance_of_rows net.now in AreLoads n (live_of_rows net.now) n.stays sent.now }
    ensures { result ≡ is_spare (instance_of_rows net.now) (live_of_rows net.now) round row }
{
    sent[cell(net.rounds(), row, round)] < net.cap(row, round)
}
