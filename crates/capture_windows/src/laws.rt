//! What two windows, one after the other, have to do with each other.

ghost use Rattle.std.specs.Prelude.{◌≡◌, ◌≤◌, ◌+◌, ℕ, [], List, All, Bool, false, count_by, filter, map};
ghost use Rattle.capture.specs.declared.timed_request.TimedRequest.{TimedRequest};
ghost use Rattle.capture_windows.specs.Attempts.{Attempt, is_waiting, started_in, starts_before};
ghost use Rattle.capture_windows.specs.Devices.{attempts_of, earlier_flights, going_on};
ghost use Rattle.capture_windows.specs.Laws.{AreInTurn, Read, all_read, flies_past, flight_after, span_between, taken_by, whole_span};

use crate::attempt::Attempt;
use crate::time_span::TimeSpan;

/// Each request that is started in one of two windows is in that one and not in the other: of any kind there are as many in both as
/// were started in the whole span. The second window takes of what goes on what it would take of all.
pub fn each_start_is_in_one_window(attempts: &[Attempt], first: TimeSpan, second: TimeSpan)
    requires next { first.until ≡ second.from }
    requires first { first.from ≤ first.until }
    requires second { second.from ≤ second.until }
    ensures later { started_in second (going_on first attempts.now) ≡ started_in second attempts.now }
    ensures once { (kind : TimedRequest → Bool) → count_by kind (started_in first attempts.now) + count_by kind (started_in second (going_on first attempts.now)) ≡ count_by kind (started_in (whole_span first second) attempts.now) }
{}

/// So it is in many windows, if each begins where the one before ends, and what was read since wasn't started before: each request
/// is taken in one of them.
pub fn each_start_is_in_one_of_many_windows()
    ensures { (reads : List Read) (from until : ℕ) → AreInTurn from reads until → (kind : TimedRequest → Bool) → count_by kind (taken_by [] reads) ≡ count_by kind (started_in (span_between from until) (all_read reads)) }
{}

/// Those that wait when a window ends go on, as they are.
pub fn no_wait_is_lost_at_a_cut(attempts: &[Attempt], window: TimeSpan)
    ensures { filter (is_waiting window.until) (going_on window attempts.now) ≡ filter (is_waiting window.until) attempts.now }
{}

/// The flights of a device that were started in the first window and are in flight at its end are those that the second window
/// begins with, each with its start, and with the number of those that were in flight then.
pub fn no_slot_comes_free_at_a_cut(attempts: &[Attempt], first: TimeSpan, second: TimeSpan)
    requires { first.until ≡ second.from }
    ensures { (device : ℕ) → earlier_flights second (attempts_of device (going_on first attempts.now)) ≡ map (flight_after first second attempts.now) (filter (flies_past first) (attempts_of device attempts.now)) }
{}

/// What goes on from a window was started in it, or isn't started yet: so a flight is kept no longer than to the end of the window
/// after its own.
pub fn what_is_kept_is_new(attempts: &[Attempt], window: TimeSpan)
    requires { window.from ≤ window.until }
    ensures { All (λ (a : Attempt). starts_before window.from a ≡ false) (going_on window attempts.now) }
{}
