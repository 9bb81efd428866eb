//! The requests of a recording as stays, and how many of them its rows take.

ghost use Rattle.std.specs.Prelude.{◌≡◌, ◌*◌, ◌-◌, ◌^◌, ◌<◌, ◌≤◌, List, length, map, IfOk};
ghost use Rattle.cam_types.specs.Lists.{prefixed};
ghost use Rattle.cam_types.specs.Topology.{IsConfig};
ghost use Rattle.cam_types.specs.Questions.{weight};
ghost use Rattle.cam_types.specs.declared.limits.TheConstants.{MAX_PRIORITY, MAX_WEIGHT};
ghost use Rattle.recording_file.specs.declared.limits.TheConstants.{MAX_RECORDED_ROUNDS};
ghost use Rattle.recording_file.specs.declared.request.Request.{Request};
ghost use Rattle.recording_file.specs.Caps.{cap_in};
ghost use Rattle.recording_file.specs.declared.cap.Cap.{Cap};
ghost use Rattle.recording_file.specs.Room.{Holds, rows_by};
ghost use Rattle.round_net.specs.Caps.{resource_count};
ghost use Rattle.round_net.specs.Nets.{table};
ghost use Rattle.round_net.specs.RecordedNets.{request_row, recorded_cap, part_of_resource, instance_of_recording, live_of_recording};
ghost use Rattle.round_net.specs.Schedules.{cost};

use crate::resource_state::{Resource, resource_count, resource_of};
use crate::stay_row::StayRow;
use cam_types::{Config, Priority};
use event_rules::Stay;
use recording_file::{Part, PartKind, Recording, Request, cap_table, cell_of};
use std::alloc::{AllocError, Global};

/// The requests as stays, in the order of the text.
pub fn request_rows(alloc: Global, recording: &Recording) -> Result<Vec<StayRow>, AllocError>
    ensures { IfOk result (λ rows. rows.items ≡ map (request_row recording.now.config recording.now.rounds) (prefixed recording.now.requests)) }
{
    let config = recording.config();
    let rounds = recording.rounds();
    let requests = recording.requests();
    let mut rows = Vec::with_capacity(alloc, requests.len())?;
    for number in 0..requests.len() {
        rows.push(request_row(config, rounds, number, requests[number]))?;
    }
    Ok(rows)
}

// A request as a stay: its number is the stay's CCB, in its try 0.
#[tactic(auto, unfolding(crate::specs::RecordedNets::request_row))]
fn request_row(config: &Config, rounds: u32, number: usize, request: Request) -> StayRow
    requires kept { IsConfig config.now }
    requires few { number < 2 ^ 32 }
    requires priority { request.priority ≤ MAX_PRIORITY }
    ensures { (before : List Request) → length before ≡ number → result ≡ request_row config.now rounds (before, request) }
{
    StayRow {
        stay: Stay {
            ccb: number as u32,
            attempt: 0,
        },
        device: request.device,
        arrival: request.arrival,
        last: match request.last {
            Some(last) => last,
            None => rounds,
        },
        weight: weight_of(config, request.priority),
        live: request.sent,
    }
}

// What a round of waiting costs at a priority.
#[tactic(auto, using(cam_types::proofs::ConfigLemmas::weight_small))]
fn weight_of(config: &Config, priority: u32) -> u32
    requires kept { IsConfig config.now }
    requires priority { priority ≤ MAX_PRIORITY }
    ensures same { result ≡ weight config.now priority }
    ensures small { result ≤ MAX_WEIGHT }
{
    let Ok(priority) = Priority::new(priority) else {
        unreachable!()
    };
    config.weight(priority)
}

/// What the waiting of all requests cost, in weighted rounds, as they were started. It is what it cost in the recording's net,
/// which isn't made.
pub fn recorded_cost(recording: &Recording) -> u64
    ensures { result ≡ cost (instance_of_recording recording.now) (live_of_recording recording.now) }
{
    let config = recording.config();
    let requests = recording.requests();
    let mut total = 0;
    for number in 0..requests.len() {
        total += waited(config, requests[number]);
    }
    total
}

// What a request's waiting cost.
fn waited(config: &Config, request: Request) -> u64
    requires kept { IsConfig config.now }
    requires priority { request.priority ≤ MAX_PRIORITY }
    ensures same { result ≡ weight config.now request.priority * (request.sent - request.arrival) }
    ensures short { result ≤ MAX_WEIGHT * 2 ^ 32 }
{
    u64::from(weight_of(config, request.priority))
        * u64::from(request.sent.saturating_sub(request.arrival))
}

/// How many requests each row takes in each round.
pub fn resource_caps(alloc: Global, recording: &Recording) -> Result<Vec<u32>, AllocError>
    ensures { IfOk result (λ caps. caps.items ≡ table (resource_count recording.now.config) recording.now.rounds (recorded_cap recording.now)) }
{
    let config = recording.config();
    let rounds = recording.rounds();
    let taken = cap_table(alloc, recording)?;
    let cells = resource_count(config) * rounds;
    let mut caps = Vec::with_capacity(alloc, cells as usize)?;
    for at in 0..cells {
        let row = at / rounds;
        let round = at % rounds + 1;
        caps.push(resource_cap(config, rounds, &taken, row, round))?;
    }
    Ok(caps)
}

// How many requests a row takes in a round, by a table of all parts.
fn resource_cap(config: &Config, rounds: u32, taken: &[u32], row: u32, round: u32) -> u32
    requires kept { IsConfig config.now }
    requires most { rounds ≤ MAX_RECORDED_ROUNDS }
    requires size { length taken.now ≡ 44 * rounds }
    requires row { row < resource_count config.now }
    requires first { 1 ≤ round }
    requires last { round ≤ rounds }
    ensures { (caps : List Cap) → Holds rounds (cap_in config.now caps) taken.now → result ≡ cap_in config.now caps (part_of_resource config.now row) round }
{
    taken[cell_of(rounds, part_of_resource(config, row), round)]
}

// The part that has the row.
#[tactic(auto, using(crate::proofs::OwnerLemmas::by_resource_device, crate::proofs::OwnerLemmas::by_resource_adapter, crate::proofs::OwnerLemmas::by_resource_link, cam_types::proofs::ConfigLemmas::few_devices, cam_types::proofs::ConfigLemmas::few_adapters, cam_types::proofs::ConfigLemmas::few_links))]
fn part_of_resource(config: &Config, row: u32) -> Part
    requires kept { IsConfig config.now }
    requires row { row < resource_count config.now }
    ensures same { result ≡ part_of_resource config.now row }
    ensures there { result.number < rows_by result.kind }
{
    match resource_of(config, row) {
        Resource::Device(number) => part(PartKind::Device, number),
        Resource::Adapter(number) => part(PartKind::Adapter, number),
        Resource::Link(number) => part(PartKind::Link, number),
    }
}

fn part(kind: PartKind, number: u32) -> Part
    ensures { result ≡ record { kind = kind; number = number } }
{
    Part { kind, number }
}
