//! What a recording and its windows have to do with each other.

ghost use Rattle.std.specs.Prelude.{◌≡◌, ℕ, ◌+◌, ◌≤◌, List, sum, sum_by};
ghost use Rattle.round_net.specs.RecordedNets.{instance_of_recording, live_of_recording};
ghost use Rattle.round_net.specs.Schedules.{IsAdmissible, cost};
ghost use Rattle.window_recordings.specs.Laws.{one_after_other, recorded_cost, IsExcess, AreExcesses};
ghost use Rattle.window_recordings.specs.Windows.{first_window, second_window, carried, windows, carried_in_all, AreCuts};

use recording_file::Recording;

/// What the waiting in a recording cost is what it cost in its two windows, and what the requests of the second one waited before
/// it.
pub fn nothing_is_lost(recording: &Recording, round: u32)
    requires { round ≤ recording.now.rounds }
    ensures { recorded_cost recording.now ≡ recorded_cost (first_window round recording.now) + recorded_cost (second_window round recording.now) + carried round recording.now }
{}

/// Admissible schedules of the two windows, one after the other, are an admissible schedule of the recording. It costs what they
/// do, and what is carried.
pub fn one_after_other_is_admissible(recording: &Recording, round: u32)
    requires { round ≤ recording.now.rounds }
    ensures admissible { (f g : ℕ → ℕ) → IsAdmissible (instance_of_recording (first_window round recording.now)) f → IsAdmissible (instance_of_recording (second_window round recording.now)) g
        → IsAdmissible (instance_of_recording recording.now) (one_after_other (live_of_recording recording.now) round f g) }
    ensures cost { (f g : ℕ → ℕ) → IsAdmissible (instance_of_recording (first_window round recording.now)) f → IsAdmissible (instance_of_recording (second_window round recording.now)) g
        → cost (instance_of_recording recording.now) (one_after_other (live_of_recording recording.now) round f g) ≡ cost (instance_of_recording (first_window round recording.now)) f + cost (instance_of_recording (second_window round recording.now)) g + carried round recording.now }
{}

/// What could have been avoided in the two windows could have been avoided in the recording: its excess is at least the sum of
/// theirs.
pub fn excess_is_at_least_that_of_windows(recording: &Recording, round: u32)
    requires { round ≤ recording.now.rounds }
    ensures { (excess first second : ℕ) → IsExcess recording.now excess → IsExcess (first_window round recording.now) first → IsExcess (second_window round recording.now) second → first + second ≤ excess }
{
    let _rounds = recording.rounds();
}

/// In a recording that is cut into many windows nothing is lost either.
pub fn nothing_is_lost_in_many(recording: &Recording, cuts: &[u32])
    requires { AreCuts recording.now.rounds cuts.now }
    ensures { recorded_cost recording.now ≡ sum_by recorded_cost (windows cuts.now recording.now) + carried_in_all cuts.now recording.now }
{}

/// Its excess is at least the sum of those of its windows, however many they are.
pub fn excess_is_at_least_that_of_many(recording: &Recording, cuts: &[u32])
    requires { AreCuts recording.now.rounds cuts.now }
    ensures { (excess : ℕ) (excesses : List ℕ) → IsExcess recording.now excess → AreExcesses (windows cuts.now recording.now) excesses → sum excesses ≤ excess }
{
    let _rounds = recording.rounds();
}
