//! What requests waited before the window in which they were started.

ghost use Rattle.std.specs.Prelude.{◌≡◌, ◌+◌, ◌-◌, ◌*◌, ◌^◌, ◌<◌, ◌≤◌};
ghost use Rattle.cam_types.specs.Topology.{IsConfig};
ghost use Rattle.cam_types.specs.Questions.{weight};
ghost use Rattle.cam_types.specs.declared.limits.TheConstants.{MAX_PRIORITY, MAX_WEIGHT};
ghost use Rattle.window_recordings.specs.Windows.{carried};

use cam_types::{Config, Priority};
use recording_file::{Recording, Request};

/// What the requests that were started after a round waited up to its end, in weighted rounds: it is part of what their waiting
/// cost, and of neither window.
pub fn carried(recording: &Recording, round: u32) -> u64
    ensures { result ≡ carried round recording.now }
{
    let config = recording.config();
    let mut total = 0;
    for request in recording.requests() {
        if round < request.sent {
            total += waited(config, *request, round);
        }
    }
    total
}

// What a request's waiting up to the end of a round cost.
#[tactic(auto, using(cam_types::proofs::ConfigLemmas::weight_small))]
fn waited(config: &Config, request: Request, round: u32) -> u64
    requires kept { IsConfig config.now }
    requires priority { request.priority ≤ MAX_PRIORITY }
    ensures same { result ≡ weight config.now request.priority * (round + 1 - request.arrival) }
    ensures short { result ≤ MAX_WEIGHT * 2 ^ 32 }
{
    let Ok(priority) = Priority::new(request.priority) else {
        unreachable!()
    };
    let rounds = (u64::from(round) + 1).saturating_sub(u64::from(request.arrival));
    u64::from(config.weight(priority)) * rounds
}
