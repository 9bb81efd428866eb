//! What holds of each event.

ghost use Rattle.std.specs.Prelude.{◌≡◌, ◌++◌, ◌≤◌, Some, true, IsSomeAnd};
ghost use Rattle.capture_file.specs.declared.attempt.Attempt.{Attempt};
ghost use Rattle.capture_file.specs.declared.attempt.Place.{Place};
ghost use Rattle.capture_file.specs.declared.attempt.Sent.{Sent};
ghost use Rattle.capture_file.specs.States.{start_of};
ghost use Rattle.capture_file.specs.Attempts.{ids, with_id, waits_at, fits_at, first_waiting, newest_at};
ghost use Rattle.capture_file.specs.Events.{without_it};
ghost use Rattle.capture_file.specs.Laws.{Event, after, gone, new_ids, IsStartKept, IsArrivalKept};

use crate::requests::Requests;

/// Of those that wait at a place one that came first is started; of those in flight there that fit a completion, one that was started
/// last is completed.
pub fn oldest_starts_and_newest_ends(requests: &Requests)
    ensures waiting { (place : Place) (a : Attempt) → with_id a.id requests.now.attempts ≡ Some a → waits_at place a ≡ true
        → IsSomeAnd (first_waiting place requests.now.attempts) (λ (first : Attempt). (waits_at place first ≡ true) × (first.id ≤ a.id)) }
    ensures in_flight { (place : Place) (sent : Sent) (a : Attempt) → with_id a.id requests.now.attempts ≡ Some a → fits_at place sent a ≡ true
        → IsSomeAnd (newest_at place sent requests.now.attempts) (λ (last : Attempt). (fits_at place sent last ≡ true) × (start_of a.state ≤ start_of last.state)) }
{
    let _first = requests.get(0);
}

/// No event loses an attempt, but for the one that is merged or ends without a start: the ids after it are those before it,
/// without the id of that one, and with the id of the new one.
pub fn nothing_is_lost(requests: &Requests)
    ensures { (event : Event) → ids (after event requests.now).attempts ≡ ids (without_it requests.now (gone event requests.now)).attempts ++ new_ids requests.now.next (after event requests.now).next }
{
    let _first = requests.get(0);
}

/// None is started twice: after each event, what was started before it was started when it was.
pub fn none_is_started_twice(requests: &Requests)
    ensures { (event : Event) (a b : Attempt) → with_id a.id requests.now.attempts ≡ Some a → with_id a.id (after event requests.now).attempts ≡ Some b → IsStartKept a b }
{
    let _first = requests.get(0);
}

/// No event changes an arrival, but for one that wasn't seen: it becomes known by an arrival that comes after the start.
pub fn arrivals_stay(requests: &Requests)
    ensures { (event : Event) (a b : Attempt) → with_id a.id requests.now.attempts ≡ Some a → with_id a.id (after event requests.now).attempts ≡ Some b → IsArrivalKept a b }
{
    let _first = requests.get(0);
}
