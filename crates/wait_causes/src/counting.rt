//! The rounds that stays waited, counted.

ghost use Rattle.std.specs.Prelude.{◌≡◌, ◌<◌, ◌≤◌, length, map, IfOk, OnOk};
ghost use Rattle.wait_causes.specs.Origins.{net_in, instance_in};
ghost use Rattle.wait_causes.specs.Stays.{counted};
ghost use Rattle.wait_causes.specs.Totals.{AreSendsOf};
ghost use Rattle.wait_causes.specs.Counting.{AreWithin, causes_before, behind_before, AreCauseTotals, AreBehindTotals, IsFilled, key_of, MAX_WEIGHT};
ghost use Rattle.wait_causes.specs.declared.origin.Origin.{Origin as Origins};

use crate::behind::FullBehind;
use crate::explained_stay::{CauseRounds, ExplainedStay};
use crate::origin::Origin;
use crate::sends::Sends;
use crate::totals::{behind_between, behind_totals, cause_totals, rounds_between};
use cam_types::MAX_WEIGHT;
use round_net::Net;
use std::alloc::{AllocError, Global};

/// The stays with the rounds that they waited counted, by cause and by what they waited behind.
pub(crate) fn count_waits(
    alloc: Global,
    origin: &Origin,
    net: &Net,
    sends: &[Sends],
    stays: &[ExplainedStay],
) -> Result<Vec<ExplainedStay>, AllocError>
    requires net { net.now ≡ net_in origin.now }
    requires sends { AreSendsOf origin.now sends.now }
    requires within { AreWithin (instance_in origin.now) stays.now }
    ensures { IfOk result (λ rows. rows.items ≡ map (counted origin.now) stays.now) }
{
    let causes = all_cause_totals(alloc, origin, net)?;
    let mut behinds = no_totals(alloc, net.devices())?;
    let mut rows = Vec::with_capacity(alloc, stays.len())?;
    for stay in stays {
        let weight = u32::from(stay.weight);
        fill(alloc, origin, net, sends, &mut behinds, stay.device, weight)?;
        let causes = &causes[stay.device as usize];
        rows.push(counted(stay, causes, &behinds[key_of(stay.device, weight)]))?;
    }
    Ok(rows)
}

// The rounds before each round by cause, of each device.
fn all_cause_totals(
    alloc: Global,
    origin: &Origin,
    net: &Net,
) -> Result<Vec<Vec<CauseRounds>>, AllocError>
    requires net { net.now ≡ net_in origin.now }
    ensures { IfOk result (λ totals. AreCauseTotals origin.now totals.items) }
{
    let mut totals = Vec::with_capacity(alloc, net.devices() as usize)?;
    for device in 0..net.devices() {
        totals.push(cause_totals(alloc, origin, net.rounds(), device)?)?;
    }
    Ok(totals)
}

// An empty list for each weight on each device.
fn no_totals(alloc: Global, devices: u32) -> Result<Vec<Vec<FullBehind>>, AllocError>
    ensures { IfOk result (λ totals. (o : Origins) → devices ≡ (instance_in o).devices → AreBehindTotals o totals.items) }
{
    let count = key_of(devices, 0);
    let mut totals = Vec::with_capacity(alloc, count)?;
    for _key in 0..count {
        totals.push(Vec::new(alloc))?;
    }
    Ok(totals)
}

// Where the list of a weight on a device stands.
fn key_of(device: u32, weight: u32) -> usize
    ensures { result ≡ key_of device weight }
{
    device as usize * (MAX_WEIGHT as usize + 1) + weight as usize
}

// Fills the list of a weight on a device, unless it is filled.
fn fill(
    alloc: Global,
    origin: &Origin,
    net: &Net,
    sends: &[Sends],
    behinds: &mut Vec<Vec<FullBehind>>,
    device: u32,
    weight: u32,
) -> Result<(), AllocError>
    requires net { net.now ≡ net_in origin.now }
    requires sends { AreSendsOf origin.now sends.now }
    requires device { device < (instance_in origin.now).devices }
    requires weight { weight ≤ MAX_WEIGHT }
    requires before { AreBehindTotals origin.now behinds.old.items }
    ensures kept { OnOk result (AreBehindTotals origin.now behinds.new.items) }
    ensures filled { OnOk result (IsFilled origin.now device weight behinds.new.items) }
{
    let key = key_of(device, weight);
    if behinds[key].is_empty() {
        behinds[key] = behind_totals(alloc, origin, net, sends, device, weight)?;
    }
    Ok(())
}

// The stay with its rounds counted, by the lists of its device and its weight.
fn counted(stay: &ExplainedStay, causes: &[CauseRounds], behinds: &[FullBehind]) -> ExplainedStay
    requires first { 1 ≤ stay.now.arrival }
    requires last { stay.now.live ≤ length causes.now }
    requires end { stay.now.live ≤ length behinds.now }
    ensures { (o : Origins) → causes.now ≡ causes_before o stay.now.device → behinds.now ≡ behind_before o stay.now.device stay.now.weight → result ≡ counted o stay.now }
{
    ExplainedStay {
        rounds: rounds_between(causes, stay.arrival, stay.live),
        behind: behind_between(behinds, stay.arrival, stay.live),
        ..*stay
    }
}
