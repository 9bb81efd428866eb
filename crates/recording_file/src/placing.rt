//! Finds a request's place among the others.

ghost use Rattle.std.specs.Prelude.{◌≡◌, ◌≢◌, ◌<◌, ◌≤◌, ◌++◌, ◌∷◌, [], List, Err, IfOk, OnOk, OnErr};
ghost use Rattle.std.specs.List.{AllByRecursion};
ghost use Rattle.cam_types.specs.Topology.{IsConfig};
ghost use Rattle.recording_file.specs.Places.{places_of};
ghost use Rattle.recording_file.specs.Recorded.{Request, request_cause, MAX_RECORDED_ROUNDS};
ghost use Rattle.recording_file.specs.Requests.{unless_cause, placed_unless, OutOfMemory};
ghost use Rattle.recording_file.specs.Room.{IsLaid, IsSized, IsTable};
ghost use Rattle.recording_file.specs.Ready.{IsReady};

use crate::cap::Cap;
use crate::places::Places;
use crate::request::Request;
use crate::request_error::RequestError;
use crate::request_rules::plain_cause;
use crate::room::fill_room;
use cam_types::Config;
use std::alloc::Global;

// The places that a request takes of, or the first cause that it can't.
fn ready_places(
    alloc: Global,
    room: &mut Vec<u32>,
    rounds: u32,
    config: &Config,
    caps: &[Cap],
    request: Request,
) -> Result<Places, RequestError>
    requires some { 1 ≤ rounds }
    requires most { rounds ≤ MAX_RECORDED_ROUNDS }
    requires config { IsConfig config.now }
    requires caps { AllByRecursion (IsLaid rounds) caps.now }
    requires size { IsSized rounds room.old.items }
    ensures value { (before : List Request) → IsTable rounds config.now caps.now before room.old.items → result ≢ Err OutOfMemory → result ≡ placed_unless (places_of rounds config.now request.device request.sent) (request_cause rounds config.now caps.now (before, request)) }
    ensures table { (before : List Request) → IsTable rounds config.now caps.now before room.old.items → IsTable rounds config.now caps.now before room.new.items }
    ensures ready { (before : List Request) → IsTable rounds config.now caps.now before room.old.items → IfOk result (λ p. IsReady rounds config.now caps.now before request p room.new.items) }
{
    if let Some(cause) = plain_cause(rounds, config, request) {
        return Err(RequestError::Illegal(cause));
    }
    fill_room(alloc, room, rounds, config, caps)?;
    let places = Places::of(rounds, config, request.device, request.sent);
    match places.full(room) {
        Some(cause) => Err(RequestError::Illegal(cause)),
        None => Ok(places),
    }
}

/// Puts a request after the others and takes of the room, or answers the first cause that it can't.
pub(crate) fn place_request(
    alloc: Global,
    room: &mut Vec<u32>,
    requests: &mut Vec<Request>,
    rounds: u32,
    config: &Config,
    caps: &[Cap],
    request: Request,
) -> Result<(), RequestError>
    requires some { 1 ≤ rounds }
    requires most { rounds ≤ MAX_RECORDED_ROUNDS }
    requires config { IsConfig config.now }
    requires caps { AllByRecursion (IsLaid rounds) caps.now }
    requires table { IsTable rounds config.now caps.now requests.old.items room.old.items }
    ensures answer { result ≢ Err OutOfMemory → result ≡ unless_cause (request_cause rounds config.now caps.now (requests.old.items, request)) }
    ensures ok { OnOk result (requests.new.items ≡ requests.old.items ++ request ∷ []) }
    ensures err { OnErr result (requests.new.items ≡ requests.old.items) }
    ensures table { IsTable rounds config.now caps.now requests.new.items room.new.items }
{
    let places = ready_places(alloc, room, rounds, config, caps, request)?;
    if requests.push(request).is_err() {
        return Err(RequestError::OutOfMemory);
    }
    places.take(room);
    Ok(())
}
