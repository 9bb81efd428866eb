//! The requests of a recording, by the rounds in which they arrived.

ghost use Rattle.std.specs.Prelude.{◌≡◌, map, IfOk};
ghost use Rattle.conversions.specs.Arrivals.{arrival_by, requested};

use crate::arrival::Arrival;
use cam_types::Flags;
use event_rules::Submission;
use recording_file::Request;
use std::alloc::{AllocError, Global};

/// The requests as submits, in the order of their arrival, those of a round in the order of the recording. It fails only if
/// there is no memory.
pub(crate) fn requested(alloc: Global, requests: &[Request]) -> Result<Vec<Arrival>, AllocError>
    ensures { IfOk result (λ found. found.items ≡ requested requests.now) }
{
    let mut found = submits_of(alloc, requests)?;
    found.sort_by_key(|arrival| arrival.round)?;
    Ok(found)
}

// The requests as submits, in the order of the recording.
fn submits_of(alloc: Global, requests: &[Request]) -> Result<Vec<Arrival>, AllocError>
    ensures { IfOk result (λ found. found.items ≡ map arrival_by requests.now) }
{
    requests
        .iter()
        .map(|request| arrival_by(request))
        .collect(alloc)
}

// A request as a submit without retries and flags.
fn arrival_by(request: &Request) -> Arrival
    ensures { result ≡ arrival_by request.now }
{
    Arrival {
        round: request.arrival,
        submission: Submission {
            driver: request.driver,
            device: request.device,
            priority: request.priority,
            retries: 0,
            flags: Flags::none(),
        },
    }
}
