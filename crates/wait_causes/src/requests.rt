//! The requests of a recording, whose rounds are still to be counted.

ghost use Rattle.std.specs.Prelude.{◌≡◌, ◌<◌, ◌≤◌, ◌^◌, List, map, length, zip, IfOk};
ghost use Rattle.cam_types.specs.Lists.{prefixed};
ghost use Rattle.cam_types.specs.Topology.{IsConfig};
ghost use Rattle.cam_types.specs.declared.limits.TheConstants.{MAX_PRIORITY};
ghost use Rattle.recording_file.specs.declared.request.Request.{Request};
ghost use Rattle.wait_causes.specs.Stays.{request_by};

use crate::behind::FullBehind;
use crate::explained_stay::{CauseRounds, ExplainedStay};
use crate::listing::adapter_of;
use cam_types::{Config, Priority};
use recording_file::{Recording, Request};
use round_net::Schedule;
use std::alloc::{AllocError, Global};

/// The requests, each beside its rounds of the two schedules.
pub(crate) fn list_requests(
    alloc: Global,
    recording: &Recording,
    pace: &Schedule,
    best: &Schedule,
) -> Result<Vec<ExplainedStay>, AllocError>
    requires pace { length pace.now ≡ length recording.now.requests }
    requires best { length best.now ≡ length recording.now.requests }
    ensures { IfOk result (λ rows. rows.items ≡ map (request_by recording.now.config) (zip (prefixed recording.now.requests) (zip pace.now best.now))) }
{
    let config = recording.config();
    let requests = recording.requests();
    let mut rows = Vec::with_capacity(alloc, requests.len())?;
    for number in 0..requests.len() {
        let pace = pace.round(number as u32);
        let best = best.round(number as u32);
        rows.push(explain(config, number, requests[number], pace, best))?;
    }
    Ok(rows)
}

// The request of this number, started in these rounds by the two schedules.
#[tactic(auto, unfolding(crate::specs::Stays::request_by))]
fn explain(config: &Config, number: usize, request: Request, pace: u32, best: u32) -> ExplainedStay
    requires kept { IsConfig config.now }
    requires few { number < 2 ^ 32 }
    requires priority { request.priority ≤ MAX_PRIORITY }
    ensures { (before : List Request) → length before ≡ number → result ≡ request_by config.now ((before, request), (pace, best)) }
{
    let Ok(priority) = Priority::new(request.priority) else {
        unreachable!()
    };
    ExplainedStay {
        ccb: number as u32,
        attempt: 0,
        driver: request.driver,
        device: request.device,
        adapter: adapter_of(config, request.device),
        priority: request.priority,
        level: priority.run_level(),
        weight: config.weight(priority) as u16,
        arrival: request.arrival,
        live: request.sent,
        pace: Some(pace),
        best,
        last: request.last,
        done: request.done,
        rounds: CauseRounds::none(),
        behind: FullBehind::none(),
    }
}
