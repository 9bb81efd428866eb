//! Which choices are refused.

ghost use Rattle.std.specs.Prelude.{◌≡◌, ◌<◌, ◌≤◌, length, take, slice_index_or, Some, None};
ghost use Rattle.std.specs.List.{list_all, list_any};
ghost use Rattle.std.specs.Option.{option_map, IfSome};
ghost use Rattle.cam_types.specs.Topology.{are_openings};
ghost use Rattle.sweep.specs.Settings.{Choice as TheChoice};
ghost use Rattle.sweep.specs.Choices.{choice_fault, choices_fault, names_place, is_same_place};

use crate::setting::{Choice, Place};
use cam_types::{Config, are_openings};

/// The rule that a choice breaks.
#[derive(Clone, Copy)]
pub enum ChoiceFault {
    /// There is no device or adapter of its number.
    NoPlace,
    /// A choice before it is of the same device or adapter.
    Twice,
    /// It has no number to take.
    NoOpenings,
    /// A number is 0 or more than 255.
    BadOpenings,
}

/// A choice that is refused.
#[derive(Clone, Copy)]
pub struct RefusedChoice {
    /// Its place among the choices, from 0.
    pub at: usize,
    /// The rule that it breaks.
    pub why: ChoiceFault,
}

/// The first of the choices that breaks a rule, with the first rule that it breaks.
pub fn first_refused(config: &Config, choices: &[Choice]) -> Option<RefusedChoice>
    ensures first { option_map (λ r. r.why) result ≡ choices_fault config.now choices.now }
    ensures at { IfSome result (λ r. r.at < length choices.now) }
    ensures its { (d : TheChoice) → IfSome result (λ r. choice_fault config.now (take r.at choices.now, slice_index_or choices.now r.at d) ≡ Some r.why) }
{
    for at in 0..choices.len() {
        if let Some(why) = choice_fault(config, &choices[..at], &choices[at]) {
            return Some(RefusedChoice { at, why });
        }
    }
    None
}

// The first rule that a choice breaks, after those before it.
fn choice_fault(config: &Config, before: &[Choice], choice: &Choice) -> Option<ChoiceFault>
    ensures { result ≡ choice_fault config.now (before.now, choice.now) }
{
    if !names_place(config, choice.place) {
        return Some(ChoiceFault::NoPlace);
    }
    if has_place(before, choice.place) {
        return Some(ChoiceFault::Twice);
    }
    if choice.openings.is_empty() {
        return Some(ChoiceFault::NoOpenings);
    }
    if !all_openings(&choice.openings) {
        return Some(ChoiceFault::BadOpenings);
    }
    None
}

fn names_place(config: &Config, place: Place) -> bool
    ensures { result ≡ names_place config.now place }
{
    match place {
        Place::Device(device) => config.names_device(device),
        Place::Adapter(adapter) => config.names_adapter(adapter),
    }
}

// Whether one of the choices is of the place.
fn has_place(choices: &[Choice], place: Place) -> bool
    ensures { result ≡ list_any (λ (other : TheChoice). is_same_place other.place place) choices.now }
{
    choices
        .iter()
        .any(|other| is_same_place(other.place, place))
}

fn is_same_place(one: Place, other: Place) -> bool
    ensures { result ≡ is_same_place one other }
{
    match (one, other) {
        (Place::Device(one), Place::Device(other)) => one == other,
        (Place::Adapter(one), Place::Adapter(other)) => one == other,
        _ => false,
    }
}

fn all_openings(numbers: &[u32]) -> bool
    ensures { result ≡ list_all are_openings numbers.now }
{
    numbers.iter().all(|number| are_openings(*number))
}
