//! Whether a request can be one of a recording.

ghost use Rattle.std.specs.Prelude.{◌≡◌};
ghost use Rattle.recording_file.specs.Recorded.{last_of, window_cause, plain_cause};

use crate::cause::RequestFault;
use crate::request::Request;
use cam_types::{Config, MAX_PRIORITY};

/// The first cause that a request can't be one of a recording, whatever the other requests are.
#[tactic(auto, unfolding(crate::specs::Recorded::plain_cause))]
pub(crate) fn plain_cause(rounds: u32, config: &Config, request: Request) -> Option<RequestFault>
    ensures { result ≡ plain_cause rounds config.now request }
{
    if !config.names_device(request.device) {
        return Some(RequestFault::NoDevice);
    }
    if request.priority > MAX_PRIORITY {
        return Some(RequestFault::BadPriority);
    }
    window_cause(rounds, request)
}

#[tactic(auto, unfolding(crate::specs::Recorded::window_cause))]
fn window_cause(rounds: u32, request: Request) -> Option<RequestFault>
    ensures { result ≡ window_cause rounds request }
{
    let last = last_of(rounds, request);
    if !(1 <= request.arrival && request.arrival <= last && last <= rounds) {
        Some(RequestFault::BadWindow)
    } else if request.sent < request.arrival {
        Some(RequestFault::Early)
    } else if last < request.sent {
        Some(RequestFault::Late)
    } else {
        None
    }
}

fn last_of(rounds: u32, request: Request) -> u32
    ensures { result ≡ last_of rounds request }
{
    match request.last {
        Some(last) => last,
        None => rounds,
    }
}
