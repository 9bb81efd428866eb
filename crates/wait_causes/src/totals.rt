//! How many rounds up to each one have which cause.

ghost use Rattle.std.specs.Prelude.{◌≡◌, ◌<◌, ◌≤◌, ◌-◌, length, map, IfOk, IfSome, ℕ, Option};
ghost use Rattle.std.specs.List.{range_with_len};
ghost use Rattle.round_net.specs.Rows.{instance_of_rows, live_of_rows};
ghost use Rattle.round_net.specs.Instance.{rows, link_resource};
ghost use Rattle.std.specs.Option.{option_map};
ghost use Rattle.round_net.specs.declared.cause.WaitCause.{WaitCause as Causes};
ghost use Rattle.wait_causes.specs.Origins.{net_in, instance_in, live_in, cause_of};
ghost use Rattle.wait_causes.specs.Behind.{behind_in, behind_row, behind_by, is_full, full_row, Behind as Behinds};
ghost use Rattle.wait_causes.specs.Sends.{AreSends};
ghost use Rattle.wait_causes.specs.Stays.{rounds_by};
ghost use Rattle.wait_causes.specs.Totals.{totals_by, AreSendsOf, least_behind};

use crate::behind::{Behind, FullBehind};
use crate::explained_stay::CauseRounds;
use crate::origin::Origin;
use crate::sends::{Sends, sends_at};
use round_net::{Net, WaitCause};
use std::alloc::{AllocError, Global};

/// For each round of a device, the rounds before it by cause, the first of them round 1.
pub(crate) fn cause_totals(
    alloc: Global,
    origin: &Origin,
    rounds: u32,
    device: u32,
) -> Result<Vec<CauseRounds>, AllocError>
    requires device { device < (instance_in origin.now).devices }
    requires rounds { rounds ≡ (instance_in origin.now).rounds }
    ensures { IfOk result (λ totals. totals.items ≡ totals_by rounds_by (cause_of origin.now device) rounds) }
{
    let mut totals = Vec::with_capacity(alloc, rounds as usize)?;
    let mut so_far = CauseRounds::none();
    for before in 0..rounds {
        totals.push(so_far)?;
        so_far.add(origin.cause(device, before + 1));
    }
    Ok(totals)
}

/// The same of what a stay of that weight waits behind.
pub(crate) fn behind_totals(
    alloc: Global,
    origin: &Origin,
    net: &Net,
    sends: &[Sends],
    device: u32,
    weight: u32,
) -> Result<Vec<FullBehind>, AllocError>
    requires net { net.now ≡ net_in origin.now }
    requires device { device < (instance_in origin.now).devices }
    requires sends { AreSendsOf origin.now sends.now }
    ensures { let o = origin.now in IfOk result (λ totals. totals.items ≡ totals_by behind_by (behind_in (instance_in o) (live_in o) (cause_of o) device weight) (instance_in o).rounds) }
{
    let mut totals = Vec::with_capacity(alloc, net.rounds() as usize)?;
    let mut so_far = FullBehind::none();
    for before in 0..net.rounds() {
        totals.push(so_far)?;
        let cause = origin.cause(device, before + 1);
        so_far.add(behind_in(net, sends, device, weight, before + 1, cause));
    }
    Ok(totals)
}

// What a stay of that weight on the device waits behind in a round of this cause.
fn behind_in(
    net: &Net,
    sends: &[Sends],
    device: u32,
    weight: u32,
    round: u32,
    cause: WaitCause,
) -> Option<Behind>
    requires device { device < (instance_of_rows net.now).devices }
    requires first { 1 ≤ round }
    requires last { round ≤ (instance_of_rows net.now).rounds }
    requires sends { AreSends (instance_of_rows net.now) (live_of_rows net.now) (instance_of_rows net.now).stays sends.now }
    ensures { (causes : ℕ → ℕ → Causes) → cause ≡ causes device round → result ≡ behind_in (instance_of_rows net.now) (live_of_rows net.now) causes device weight round }
{
    if !is_full(cause) {
        return None;
    }
    match full_row(net, device, cause) {
        Some(row) => Some(behind_row(net, sends, weight, row, round)),
        None => Some(Behind::MoreUrgent),
    }
}

// Whether a row was full.
fn is_full(cause: WaitCause) -> bool
    ensures { result ≡ is_full cause }
{
    matches!(
        cause,
        WaitCause::DeviceFull | WaitCause::AdapterFull | WaitCause::LinkFull
    )
}

// The row that was full.
fn full_row(net: &Net, device: u32, cause: WaitCause) -> Option<u32>
    requires { device < (instance_of_rows net.now).devices }
    ensures same { result ≡ full_row (instance_of_rows net.now) device cause }
    ensures within { IfSome result (λ row. row < rows (instance_of_rows net.now)) }
{
    match cause {
        WaitCause::DeviceFull => Some(device),
        WaitCause::AdapterFull => Some(net.adapter_resource(net.adapter_of(device))),
        WaitCause::LinkFull => link_resource(net, net.adapter_of(device)),
        _ => None,
    }
}

// The row of the link that the adapter is on.
fn link_resource(net: &Net, adapter: u32) -> Option<u32>
    requires { adapter < (instance_of_rows net.now).adapters }
    ensures same { let n = instance_of_rows net.now in result ≡ option_map (link_resource n) (n.link_of adapter) }
    ensures within { IfSome result (λ row. row < rows (instance_of_rows net.now)) }
{
    let link = net.link_of(adapter)?;
    Some(net.link_resource(link))
}

// What a stay of that weight waits behind where the row is full in the round.
#[tactic(auto, using(crate::proofs::SendsLemmas::least_is_behind))]
fn behind_row(net: &Net, sends: &[Sends], weight: u32, row: u32, round: u32) -> Behind
    requires row { row < rows (instance_of_rows net.now) }
    requires first { 1 ≤ round }
    requires last { round ≤ (instance_of_rows net.now).rounds }
    requires sends { AreSends (instance_of_rows net.now) (live_of_rows net.now) (instance_of_rows net.now).stays sends.now }
    ensures { result ≡ behind_row (instance_of_rows net.now) (live_of_rows net.now) weight round row }
{
    least_behind(sends_at(net, sends, row, round).least, weight)
}

// What a stay of that weight waits behind where this is the least weight that was sent.
fn least_behind(least: Option<u32>, weight: u32) -> Behind
    ensures { result ≡ least_behind least weight }
{
    match least {
        Some(least) if least < weight => Behind::LessUrgent,
        Some(least) if least == weight => Behind::Equal,
        _ => Behind::MoreUrgent,
    }
}

/// Those of the rounds from the arrival to the one before the send, by cause.
pub(crate) fn rounds_between(totals: &[CauseRounds], arrival: u32, live: u32) -> CauseRounds
    requires first { 1 ≤ arrival }
    requires last { live ≤ length totals.now }
    ensures { (cause : ℕ → Causes) → totals.now ≡ totals_by rounds_by cause (length totals.now) → result ≡ rounds_by (map cause (range_with_len arrival (live - arrival))) }
{
    if live <= arrival {
        return CauseRounds::none();
    }
    totals[live as usize - 1].since(totals[arrival as usize - 1])
}

/// The same of what a stay waited behind.
pub(crate) fn behind_between(totals: &[FullBehind], arrival: u32, live: u32) -> FullBehind
    requires first { 1 ≤ arrival }
    requires last { live ≤ length totals.now }
    ensures { (behind : ℕ → Option Behinds) → totals.now ≡ totals_by behind_by behind (length totals.now) → result ≡ behind_by (map behind (range_with_len arrival (live - arrival))) }
{
    if live <= arrival {
        return FullBehind::none();
    }
    totals[live as usize - 1].since(totals[arrival as usize - 1])
}
