//! What was submitted in a history.

ghost use Rattle.std.specs.Prelude.{◌≡◌, IfOk};
ghost use Rattle.event_rules.specs.Counts.{submissions};

use event_rules::{Event, Submission};
use std::alloc::{AllocError, Global};

/// The submissions in order: a CCB's number is its submission's place. It fails only if there is no memory.
#[tactic(auto, unfolding(event_rules::specs::Counts::submissions))]
pub fn submissions(alloc: Global, events: &[Event]) -> Result<Vec<Submission>, AllocError>
    ensures { IfOk result (λ found. found.items ≡ submissions events.now) }
{
    events
        .iter()
        .filter_map(|event| event.submission())
        .collect(alloc)
}
