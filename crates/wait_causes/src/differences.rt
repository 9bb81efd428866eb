//! In what two inputs differ beside their requests.

ghost use Rattle.std.specs.Prelude.{◌≡◌, ◌≤◌, length, slice_get, false, true};
ghost use Rattle.std.specs.Option.{option_map_or};
ghost use Rattle.cam_types.specs.declared.limits.TheConstants.{MAX_DEVICES};
ghost use Rattle.wait_causes.specs.Terms.{Tells, TellsDevices, AreDifferences, is_like, has_like, all_like};

use crate::Grouping;
use crate::keys::{PairBy, is_pair, name_of, names_for};
use cam_types::{Adapter, Config, Device, MAX_DEVICES, WeightRow};
use recording_file::{Name, NameKind, Span};

/// In what two inputs differ beside their requests. If the weights or the lengths of rounds differ, their costs don't
/// compare.
#[derive(Clone, Copy)]
pub struct Differences {
    /// What a round of waiting costs by priority.
    pub weights: bool,
    /// How many links there are, or how many commands one takes in a round.
    pub links: bool,
    /// How many adapters there are, how many commands one takes in a round, or on which link one is.
    pub adapters: bool,
    /// Which devices there are, how many commands one takes in a round, or on which adapter one is. Where a device with a name
    /// stands on its adapter makes no difference if devices are paired by name.
    pub devices: bool,
    /// How long a round is, or whether that is known.
    pub round: bool,
}

impl Differences {
    /// Those of two configurations, with the names and the lengths of rounds of their inputs, if rows are paired so.
    pub fn between(
        by: PairBy,
        before: &Config,
        names_before: &[Name],
        round_before: Option<Span>,
        after: &Config,
        names_after: &[Name],
        round_after: Option<Span>,
    ) -> Differences
        ensures { AreDifferences by before.now after.now names_before.now names_after.now round_before round_after result }
    {
        let kind = names_for(by, Grouping::Device, names_before, names_after);
        Differences {
            weights: differ_in_weights(before.weights(), after.weights()),
            links: differ_in_links(before.links(), after.links()),
            adapters: differ_in_adapters(before.adapters(), after.adapters()),
            devices: differ_in_devices(
                kind,
                names_before,
                names_after,
                before.devices(),
                after.devices(),
            ),
            round: differ_in_rounds(round_before, round_after),
        }
    }
}

fn differ_in_weights(before: &[WeightRow], after: &[WeightRow]) -> bool
    ensures { Tells result before.now after.now }
{
    before != after
}

fn differ_in_links(before: &[u32], after: &[u32]) -> bool
    ensures { Tells result before.now after.now }
{
    before != after
}

fn differ_in_adapters(before: &[Adapter], after: &[Adapter]) -> bool
    ensures { Tells result before.now after.now }
{
    before != after
}

// Whether devices differ that are paired so: by the names of this kind, or one by one.
fn differ_in_devices(
    by: Option<NameKind>,
    names_before: &[Name],
    names_after: &[Name],
    before: &[Device],
    after: &[Device],
) -> bool
    requires few_before { length before.now ≤ MAX_DEVICES }
    requires few_after { length after.now ≤ MAX_DEVICES }
    ensures { TellsDevices by names_before.now names_after.now before.now after.now result }
{
    match by {
        None => before != after,
        Some(kind) => {
            !(all_like(kind, names_before, names_after, before, after)
                && all_like(kind, names_after, names_before, after, before))
        }
    }
}

// Whether each of these devices has one like it among the others.
fn all_like(
    kind: NameKind,
    names: &[Name],
    others_names: &[Name],
    devices: &[Device],
    others: &[Device],
) -> bool
    requires few { length devices.now ≤ MAX_DEVICES }
    requires few_others { length others.now ≤ MAX_DEVICES }
    ensures { result ≡ all_like kind names.now others_names.now devices.now others.now }
{
    (0..devices.len() as u32).all(|number| has_like_at(
        kind,
        names,
        others_names,
        devices,
        others,
        number,
    ))
}

// Whether the device of this number, if there is one, has one like it among the others.
fn has_like_at(
    kind: NameKind,
    names: &[Name],
    others_names: &[Name],
    devices: &[Device],
    others: &[Device],
    number: u32,
) -> bool
    requires few { length others.now ≤ MAX_DEVICES }
    ensures { result ≡ option_map_or (has_like kind names.now others_names.now others.now number) (slice_get devices.now number) true }
{
    match devices.get(number as usize) {
        Some(device) => has_like(kind, names, others_names, others, number, device),
        None => true,
    }
}

// Whether the one among these devices that is a pair with the device of this number is like it.
fn has_like(
    kind: NameKind,
    names: &[Name],
    others_names: &[Name],
    others: &[Device],
    number: u32,
    device: &Device,
) -> bool
    requires few { length others.now ≤ MAX_DEVICES }
    ensures { result ≡ has_like kind names.now others_names.now others.now number device.now }
{
    let named = name_of(names, kind, number).is_some();
    (0..others.len() as u32).any(|place| {
        is_pair(Some(kind), names, others_names, number, place)
            && is_like_at(others, place, named, device)
    })
}

// Whether the device is like the one at this place.
fn is_like_at(others: &[Device], place: u32, named: bool, device: &Device) -> bool
    ensures { result ≡ option_map_or (is_like named device.now) (slice_get others.now place) false }
{
    match others.get(place as usize) {
        Some(other) => is_like(named, device, other),
        None => false,
    }
}

// Whether a device is on the same adapter as another, with as many openings; without a name also at the same place there.
fn is_like(named: bool, device: &Device, other: &Device) -> bool
    ensures { result ≡ is_like named device.now other.now }
{
    device.bus == other.bus
        && device.openings == other.openings
        && (named || (device.target == other.target && device.lun == other.lun))
}

fn differ_in_rounds(before: Option<Span>, after: Option<Span>) -> bool
    ensures { Tells result before after }
{
    before != after
}
