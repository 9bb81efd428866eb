//! Runs of rounds with one cause, of each device.

ghost use Rattle.std.specs.Prelude.{◌≡◌, ◌+◌, ◌^◌, ◌<◌, ◌≤◌, ℕ, length, get_or, count_by, IfOk};
ghost use Rattle.std.specs.List.{range_with_len};
ghost use Rattle.wait_causes.specs.Origins.{instance_in, cause_of};

use crate::origin::Origin;
use std::alloc::{AllocError, Global};

/// For each round of a device where its run of rounds with one cause ends, and in how many rounds up to it the cause had
/// changed.
#[derive(Drop)]
pub struct DeviceRuns {
    pub(crate) lasts: Vec<u32>,
    pub(crate) changes: Vec<u32>,
}

/// The runs of each device, from which the first waits of a stay are found without a look at each round, and how many devices
/// and rounds there are.
#[derive(Drop)]
pub struct CauseRuns {
    pub(crate) devices: Vec<DeviceRuns>,
    pub(crate) count: u32,
    pub(crate) rounds: u32,
}

impl CauseRuns {
    ghost use Rattle.wait_causes.specs.FirstWaits.{AreRunsOf};

    /// Those of what is explained.
    pub(crate) fn of(
        alloc: Global,
        origin: &Origin,
        devices: u32,
        rounds: u32,
    ) -> Result<CauseRuns, AllocError>
        requires devices { devices ≡ (instance_in origin.now).devices }
        requires rounds { rounds ≡ (instance_in origin.now).rounds }
        ensures { IfOk result (λ runs. AreRunsOf origin.now runs) }
    {
        let mut runs = Vec::with_capacity(alloc, devices as usize)?;
        for device in 0..devices {
            runs.push(runs_of(alloc, origin, device, rounds)?)?;
        }
        Ok(CauseRuns {
            devices: runs,
            count: devices,
            rounds,
        })
    }
}

ghost use Rattle.wait_causes.specs.FirstWaits.{AreRuns, IsLast, has_changed, one_if};

fn runs_of(
    alloc: Global,
    origin: &Origin,
    device: u32,
    rounds: u32,
) -> Result<DeviceRuns, AllocError>
    requires device { device < (instance_in origin.now).devices }
    requires rounds { rounds ≡ (instance_in origin.now).rounds }
    ensures { IfOk result (λ runs. AreRuns (cause_of origin.now device) rounds runs) }
{
    Ok(DeviceRuns {
        lasts: lasts_of(alloc, origin, device, rounds)?,
        changes: changes_of(alloc, origin, device, rounds)?,
    })
}

// For each round the last of its run, from the last round on.
fn lasts_of(
    alloc: Global,
    origin: &Origin,
    device: u32,
    rounds: u32,
) -> Result<Vec<u32>, AllocError>
    requires device { device < (instance_in origin.now).devices }
    requires rounds { rounds ≡ (instance_in origin.now).rounds }
    ensures all { IfOk result (λ lasts. length lasts.items ≡ rounds) }
    ensures each { IfOk result (λ lasts. (k : ℕ) → k < rounds → IsLast (cause_of origin.now device) rounds (k + 1) (get_or lasts.items k 0)) }
{
    let mut lasts = vec![in alloc; rounds; rounds as usize]?;
    for after in 1..rounds {
        let round = rounds - after;
        let last = last_of(origin, device, round, number_at(&lasts, round as usize));
        lasts[round as usize - 1] = last;
    }
    Ok(lasts)
}

// The last round of this one's run, if the run of the next one ends with that round.
fn last_of(origin: &Origin, device: u32, round: u32, next: u32) -> u32
    requires device { device < (instance_in origin.now).devices }
    requires first { 1 ≤ round }
    requires last { round < (instance_in origin.now).rounds }
    requires fits { round + 1 < 2 ^ 32 }
    ensures { IsLast (cause_of origin.now device) (instance_in origin.now).rounds (round + 1) next → IsLast (cause_of origin.now device) (instance_in origin.now).rounds round result }
{
    if origin
        .cause(device, round)
        .is(origin.cause(device, round + 1))
    {
        return next;
    }
    round
}

// For each round in how many rounds up to it the cause had changed.
fn changes_of(
    alloc: Global,
    origin: &Origin,
    device: u32,
    rounds: u32,
) -> Result<Vec<u32>, AllocError>
    requires device { device < (instance_in origin.now).devices }
    requires rounds { rounds ≡ (instance_in origin.now).rounds }
    ensures all { IfOk result (λ changes. length changes.items ≡ rounds) }
    ensures each { IfOk result (λ changes. (k : ℕ) → k < rounds → get_or changes.items k 0 ≡ count_by (has_changed (cause_of origin.now device)) (range_with_len 2 k)) }
{
    let mut changes = Vec::new(alloc);
    if rounds == 0 {
        return Ok(changes);
    }
    let mut count = 0;
    changes.push(count)?;
    for round in 1..rounds {
        count = with_change(origin, device, round, count);
        changes.push(count)?;
    }
    Ok(changes)
}

// One more, if the round after this one has another cause.
fn with_change(origin: &Origin, device: u32, round: u32, count: u32) -> u32
    requires device { device < (instance_in origin.now).devices }
    requires first { 1 ≤ round }
    requires last { round < (instance_in origin.now).rounds }
    requires fits { round + 1 < 2 ^ 32 }
    requires few { count < round }
    ensures { result ≡ count + one_if (has_changed (cause_of origin.now device) (round + 1)) }
{
    if origin
        .cause(device, round)
        .is(origin.cause(device, round + 1))
    {
        return count;
    }
    count + 1
}

/// The number at a place.
pub(crate) fn number_at(numbers: &[u32], at: usize) -> u32
    requires { at < length numbers.now }
    ensures { result ≡ get_or numbers.now at 0 }
{
    numbers[at]
}
