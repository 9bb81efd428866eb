//! One step of a driver's script.

use event_rules::Event;

/// What a driver does next.
#[derive(Clone, Copy, Debug, PartialEq, Eq)]
pub enum Step {
    /// It calls for this event: a submit, a freeze, a release or an adjustment.
    Act(Event),
    /// It waits until the round is at least this.
    Pause(u32),
}
