//! The first waits of a stay, and how many there are after them.

ghost use Rattle.std.specs.Prelude.{◌≡◌, ◌<◌, ◌≤◌, ◌-◌, ℕ, length, get_or, count_by, IfOk};
ghost use Rattle.std.specs.List.{range_with_len};
ghost use Rattle.wait_causes.specs.Origins.{instance_in, cause_of};
ghost use Rattle.wait_causes.specs.FirstWaits.{AreRuns, AreFirstWaits, has_changed, waits_from};
ghost use Rattle.round_net.specs.declared.cause.WaitCause.{WaitCause as Causes};

use crate::cause_runs::{DeviceRuns, number_at};
use crate::origin::Origin;
use crate::wait::Wait;
use std::alloc::{AllocError, Global};

/// The first waits of a stay.
#[derive(Drop)]
pub struct FirstWaits {
    /// These waits, in order.
    pub listed: Vec<Wait>,
    /// The first round in which it waited that isn't in them; that of its send if all are listed.
    pub next: u32,
    /// How many waits follow them.
    pub more: u64,
}

impl FirstWaits {
    ghost use Rattle.std.specs.Prelude.{[]};

    /// None at all.
    pub(crate) fn none(alloc: Global) -> FirstWaits
        ensures { result.listed.items ≡ [] }
    {
        FirstWaits {
            listed: Vec::new(alloc),
            next: 0,
            more: 0,
        }
    }
}

/// At most so many waits in the rounds from the arrival to the one before the send.
pub(crate) fn first_waits(
    alloc: Global,
    origin: &Origin,
    runs: &DeviceRuns,
    device: u32,
    arrival: u32,
    live: u32,
    most: usize,
) -> Result<FirstWaits, AllocError>
    requires device { device < (instance_in origin.now).devices }
    requires runs { AreRuns (cause_of origin.now device) (instance_in origin.now).rounds runs.now }
    requires first { 1 ≤ arrival }
    requires last { live ≤ (instance_in origin.now).rounds }
    ensures { IfOk result (λ w. AreFirstWaits (cause_of origin.now device) arrival live most w) }
{
    let mut listed = Vec::new(alloc);
    let mut next = arrival;
    while next < live && listed.len() < most {
        let last = number_at(&runs.lasts, next as usize - 1).min(live - 1);
        let cause = origin.cause(device, next);
        listed.push(Wait {
            cause,
            first: next,
            last,
        })?;
        next = last + 1;
    }
    let more = waits_from(&runs.changes, next, live);
    Ok(FirstWaits { listed, next, more })
}

// How many waits the rounds from a first one to the one before the send make, by the changes up to each round.
fn waits_from(changes: &[u32], first: u32, live: u32) -> u64
    requires first { 1 ≤ first }
    requires last { live ≤ length changes.now }
    ensures { (f : ℕ → Causes) → ((k : ℕ) → k < length changes.now → get_or changes.now k 0 ≡ count_by (has_changed f) (range_with_len 2 k)) → result ≡ waits_from f first (live - first) }
{
    if live <= first {
        return 0;
    }
    let before = number_at(changes, first as usize - 1);
    let changed = number_at(changes, live as usize - 2).saturating_sub(before);
    u64::from(changed) + 1
}
