//! What a part took in each round.

ghost use Rattle.std.specs.Prelude.{◌≡◌, ◌<◌, ◌≤◌, ◌^◌, IfOk, All, filter, map, length};
ghost use Rattle.recording_file.specs.Recorded.{takes_of, load};
ghost use Rattle.capture.specs.Faults.{IsInRounds};
ghost use Rattle.capture.specs.Loads.{IsRow};

use crate::parts::takes;
use crate::tally::tally;
use cam_types::Config;
use recording_file::{Part, Request};
use std::alloc::{AllocError, Global};

// The rounds in which a part's requests were started.
fn starts(
    alloc: Global,
    config: &Config,
    requests: &[Request],
    part: Part,
) -> Result<Vec<u32>, AllocError>
    ensures { IfOk result (λ rounds. rounds.items ≡ map (λ q. q.sent) (filter (λ q. takes_of config.now part q.device) requests.now)) }
{
    requests
        .iter()
        .filter(|request| takes(config, part, request.device))
        .map(|request| request.sent)
        .collect(alloc)
}

/// How many requests a part took in each round. It fails only if there is no memory.
pub fn load_row(
    alloc: Global,
    last: u32,
    config: &Config,
    requests: &[Request],
    part: Part,
) -> Result<Vec<u32>, AllocError>
    requires within { All (IsInRounds last) requests.now }
    requires few { length requests.now < 2 ^ 32 }
    ensures { IfOk result (λ row. IsRow (load config.now requests.now part) last row.items) }
{
    let rounds = starts(alloc, config, requests, part)?;
    tally(alloc, last, &rounds)
}
