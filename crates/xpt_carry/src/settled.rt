//! Whether a round is at its end, with nothing left to decide.

ghost use Rattle.std.specs.Prelude.{◌≡◌};
ghost use Rattle.xpt_carry.specs.Carry.{has_case, unsettled};

use crate::fault::CarryFault;
use xpt_core::State;

/// Why the round isn't at its end.
#[tactic(auto, unfolding(crate::specs::Carry::unsettled))]
pub(crate) fn unsettled(state: &State) -> Option<CarryFault>
    ensures { result ≡ unsettled state.now.events }
{
    if state.devices().has_in_flight() {
        Some(CarryFault::InFlight)
    } else if has_case(state) {
        Some(CarryFault::Undecided)
    } else {
        None
    }
}

// Whether a CCB waits for a decision on its error.
fn has_case(state: &State) -> bool
    ensures { result ≡ has_case state.now.events }
{
    state.case_count() != 0
}
