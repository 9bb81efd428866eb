//! Why a lane is refused that asks for its next command.

ghost use Rattle.std.specs.Prelude.{◌≡◌};
ghost use Rattle.xpt_state.specs.Sends.{lane_refusal};

use event_rules::Refusal;
use xpt_core::State;

/// Why a lane that asks for the next command is refused.
pub(crate) fn lane_refusal(state: &State, lane: u32) -> Option<Refusal>
    ensures { result ≡ lane_refusal state.now.rules state.now.config state.now.events lane }
{
    if let Some(full) = state.full_refusal() {
        Some(full)
    } else if !state.config().names_lane(lane) {
        Some(Refusal::NoLane)
    } else {
        None
    }
}
