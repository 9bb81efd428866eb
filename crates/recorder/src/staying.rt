//! What stays after a window.

ghost use Rattle.std.specs.Prelude.{◌≡◌, ◌≤◌, length, filter, vec_capacity};
ghost use Rattle.recorder.specs.NoteWindows.{is_kept, stays};

use capture_windows::{Attempt, TimeSpan, goes_on};

/// Whether an attempt concerns later windows. One that was withdrawn doesn't.
pub(crate) fn stays(attempt: &Attempt, span: TimeSpan) -> bool
    ensures { result ≡ stays span attempt.now }
{
    attempt.is_taken && goes_on(attempt, span)
}

/// Puts those that go on in the place of all attempts, without those that were withdrawn.
pub(crate) fn replace_by(attempts: &mut Vec<Attempt>, going_on: &[Attempt])
    requires { length going_on.now ≤ vec_capacity attempts.old }
    ensures items { attempts.new.items ≡ filter is_kept going_on.now }
    ensures capacity { vec_capacity attempts.new ≡ vec_capacity attempts.old }
{
    attempts.clear();
    for attempt in going_on {
        if attempt.is_taken {
            attempts.push_reserved(*attempt);
        }
    }
}
