//! Who was in the way of the stays that waited for a device.

ghost use Rattle.std.specs.Prelude.{◌≡◌, ◌<◌, ◌≤◌, ◌||◌, ◌==◌, false, length, map, replicate, None, IfOk};
ghost use Rattle.std.specs.List.{range_with_len};
ghost use Rattle.cam_types.specs.Questions.{is_on};
ghost use Rattle.wait_causes.specs.Origins.{instance_in, known_of};
ghost use Rattle.wait_causes.specs.Tables.{stays_of};
ghost use Rattle.wait_causes.specs.declared.table.Grouping.TheVariants.{Device};
ghost use Rattle.wait_causes.specs.InTheWay.{device_link, is_same_link, shares_link, is_there, is_served, is_then, is_candidate, served_to, rather, last_for, in_way, is_above, NeverAbove, HasCandidates, ArePut};
ghost use Rattle.wait_causes.specs.BlameLists.{stays_in};

use crate::explained_stay::ExplainedStay;
use crate::explanation::Explanation;
use cam_types::Config;
use round_net::WaitCause;
use std::alloc::{AllocError, Global};

/// For each round of the device, from round 1 on, who was in the way there. `own` are its own stays.
pub(crate) fn in_way_of(
    alloc: Global,
    explanation: &Explanation,
    device: u32,
    own: &[ExplainedStay],
) -> Result<Vec<Option<ExplainedStay>>, AllocError>
    requires device { device < (instance_in explanation.now.origin).devices }
    requires own { own.now ≡ stays_of Device (stays_in explanation.now) device }
    ensures { let e = explanation.now in IfOk result (λ ways. ways.items ≡ map (in_way e.origin (stays_in e) device) (range_with_len 1 (instance_in e.origin).rounds)) }
{
    let mut ways = nobody(alloc, explanation.rounds())?;
    for stay in near(explanation, device, own) {
        note(explanation, device, stay, &mut ways);
    }
    Ok(ways)
}

// Stays among which all are that were in the way of the device's: its own are enough if none of them waited for its adapter or link.
fn near<'a>(
    explanation: &'a Explanation,
    device: u32,
    own: &'a [ExplainedStay],
) -> &'a [ExplainedStay]
    requires device { device < (instance_in explanation.now.origin).devices }
    requires own { own.now ≡ stays_of Device (stays_in explanation.now) device }
    ensures { HasCandidates explanation.now.origin device (stays_in explanation.now) result.now }
{
    if waits_above(explanation, device) {
        explanation.stays()
    } else {
        own
    }
}

// Whether stays of the device waited for its adapter or link in some round.
fn waits_above(explanation: &Explanation, device: u32) -> bool
    requires device { device < (instance_in explanation.now.origin).devices }
    ensures { result ≡ false → NeverAbove explanation.now.origin device (instance_in explanation.now.origin).rounds }
{
    for before in 0..explanation.rounds() {
        if is_above(explanation.cause(device, before + 1)) {
            return true;
        }
    }
    false
}

// Whether it is an adapter or a link for which stays waited.
fn is_above(cause: WaitCause) -> bool
    ensures { result ≡ is_above cause }
{
    match cause {
        WaitCause::AdapterFull
        | WaitCause::AdapterStopped
        | WaitCause::LinkFull
        | WaitCause::LinkStopped => true,
        _ => false,
    }
}

// Nobody in each of that many rounds.
fn nobody(alloc: Global, rounds: u32) -> Result<Vec<Option<ExplainedStay>>, AllocError>
    ensures { IfOk result (λ ways. ways.items ≡ replicate rounds None) }
{
    let mut ways = Vec::with_capacity(alloc, rounds as usize)?;
    for _round in 0..rounds {
        ways.push(None)?;
    }
    Ok(ways)
}

// Puts the stay where it was rather in the way than the one that stands there.
fn note(
    explanation: &Explanation,
    device: u32,
    stay: &ExplainedStay,
    ways: &mut [Option<ExplainedStay>],
)
    requires device { device < (instance_in explanation.now.origin).devices }
    requires all { length ways.old ≡ (instance_in explanation.now.origin).rounds }
    ensures { ArePut explanation.now.origin device stay.now ways.old ways.new }
{
    if !is_near(explanation.config(), device, stay) {
        return;
    }
    let last = last_of(explanation, stay);
    for before in stay.live.saturating_sub(1)..last {
        if is_candidate(explanation, device, before + 1, stay) {
            ways[before as usize] = Some(rather(ways[before as usize], *stay));
        }
    }
}

// The last round in which the stay may be in the way.
fn last_of(explanation: &Explanation, stay: &ExplainedStay) -> u32
    ensures within { result ≤ (instance_in explanation.now.origin).rounds }
    ensures last { result ≡ last_for (known_of explanation.now.origin).completions (instance_in explanation.now.origin).rounds stay.now }
{
    let rounds = explanation.rounds();
    let last = if explanation.known().completions {
        served_to(rounds, stay).max(stay.live)
    } else {
        stay.live
    };
    last.min(rounds)
}

// The last round in which the stay is in service, of that many rounds.
fn served_to(rounds: u32, stay: &ExplainedStay) -> u32
    ensures { result ≡ served_to rounds stay.now }
{
    stay.done.unwrap_or(stay.last.unwrap_or(rounds))
}

// Whether the stay takes an opening of the device, of its adapter, or of the adapter's link.
fn is_near(config: &Config, device: u32, stay: &ExplainedStay) -> bool
    ensures { result ≡ (stay.now.device == device || (is_on config.now stay.now.adapter device || shares_link config.now stay.now.adapter device)) }
{
    stay.device == device
        || config.is_on(stay.adapter, device)
        || shares_link(config, stay.adapter, device)
}

// Whether the adapter and the device are on one link.
fn shares_link(config: &Config, adapter: u32, device: u32) -> bool
    ensures { result ≡ shares_link config.now adapter device }
{
    match (config.adapter_link(adapter), device_link(config, device)) {
        (Some(link), Some(other)) => link == other,
        _ => false,
    }
}

// The link that the device is on.
fn device_link(config: &Config, device: u32) -> Option<u32>
    ensures { result ≡ device_link config.now device }
{
    config.adapter_link(config.device_adapter(device)?)
}

// Whether the stay is one of those that may have been in the way in the round.
fn is_candidate(explanation: &Explanation, device: u32, round: u32, stay: &ExplainedStay) -> bool
    requires device { device < (instance_in explanation.now.origin).devices }
    requires first { 1 ≤ round }
    requires last { round ≤ (instance_in explanation.now.origin).rounds }
    ensures { result ≡ is_candidate explanation.now.origin device round stay.now }
{
    let cause = explanation.cause(device, round);
    is_there(explanation.config(), device, cause, stay) && is_then(explanation, cause, round, stay)
}

// Whether the stay is at the device, adapter or link for which the stays of the device waited.
fn is_there(config: &Config, device: u32, cause: WaitCause, stay: &ExplainedStay) -> bool
    ensures { result ≡ is_there config.now device cause stay.now }
{
    match cause {
        WaitCause::DeviceFull | WaitCause::DeviceStopped => stay.device == device,
        WaitCause::AdapterFull | WaitCause::AdapterStopped => config.is_on(stay.adapter, device),
        WaitCause::LinkFull | WaitCause::LinkStopped => shares_link(config, stay.adapter, device),
        _ => false,
    }
}

// Whether what was full sent it in the round, or what took nothing had it in service.
fn is_then(explanation: &Explanation, cause: WaitCause, round: u32, stay: &ExplainedStay) -> bool
    ensures { let o = explanation.now.origin in result ≡ is_then (known_of o).completions (instance_in o).rounds cause round stay.now }
{
    match cause {
        WaitCause::DeviceFull | WaitCause::AdapterFull | WaitCause::LinkFull => stay.live == round,
        WaitCause::DeviceStopped | WaitCause::AdapterStopped | WaitCause::LinkStopped => {
            explanation.known().completions && is_served(explanation.rounds(), round, stay)
        }
        _ => false,
    }
}

// Whether the stay is in service in the round, of that many rounds.
fn is_served(rounds: u32, round: u32, stay: &ExplainedStay) -> bool
    ensures { result ≡ is_served rounds round stay.now }
{
    stay.live < round && round <= served_to(rounds, stay)
}

// Of two the one that is rather in the way.
fn rather(one: Option<ExplainedStay>, other: ExplainedStay) -> ExplainedStay
    ensures { result ≡ rather one other }
{
    match one {
        Some(one)
            if one.weight < other.weight
                || (one.weight == other.weight && other.arrival < one.arrival) => { one }
        _ => other,
    }
}
