//! A transport carried over to a fresh one.

ghost use Rattle.std.specs.Prelude.{◌≡◌, None, map, IfOk, MatchResult};
ghost use Rattle.event_rules.specs.Legal.{rules_of};
ghost use Rattle.event_rules.specs.declared.passage.Passage.{Passage};
ghost use Rattle.xpt_carry.specs.Carry.{carried, carrying, carry_fault, IsFault};

use crate::events::events_of;
use crate::fault::CarryFault;
use crate::order::unsent_in_order;
use crate::settled::unsettled;
use crate::taking::opened_with;
use cam_types::Limits;
use event_rules::Passage;
use std::alloc::{AllocError, Global};
use xpt_core::State;
use xpt_state::Xpt;

/// What a carry gives.
#[derive(Drop)]
pub struct Carried {
    /// The fresh transport, in round 2.
    pub xpt: Xpt,
    /// The numbers that its CCBs had in the old one, by their numbers now.
    pub numbers: Vec<u32>,
}

/// Carries what waits in a transport over to a fresh one with the same configuration and these limits, at a round's end:
/// no command is in flight, and no CCB waits for a decision. The old transport stays as it is; after its CCBs have gone on
/// under their new numbers, it is for the caller to end it.
///
/// The fresh transport takes an `Adjust` for each device whose openings of the next round aren't those of the
/// configuration, and a tick, so that they hold: its first round is empty, and it is in round 2. Then it takes the freezes
/// of devices and adapters by callers, and a submit for each stay without a send, those that were requeued among them, in
/// the order of the queues: with the same driver, device, priority and flags, and with the retries that are left.
///
/// Tries begin at 0 again. It isn't carried over which device an adapter sent to longest ago: at one priority the devices
/// take their first turns by number.
///
/// # Errors
///
/// `InFlight` if a command is in flight. `Undecided` if a CCB waits for a decision. `Refused` if the limits are too narrow,
/// with the refusal of the first event that is refused: `HistoryFull`, `CcbFull`, `StaysFull` or `RoundsFull`. They are
/// wide enough if they let 2 rounds open, and as many CCBs and stays as wait, and if there may be two events for each
/// device, one for each adapter, one for each stay that waits, and one more. `OutOfMemory` if no memory is left.
pub fn carry(alloc: Global, from: &Xpt, limits: Limits) -> Result<Carried, CarryFault>
    ensures xpt { IfOk result (λ r. r.xpt ≡ record { config = from.now.config; rules = rules_of limits; events = carrying from.now.config from.now.events }) }
    ensures numbers { IfOk result (λ r. r.numbers.items ≡ map (λ (p : Passage). p.ccb) (carried from.now.events)) }
    ensures fault { MatchResult result
        (λ _. carry_fault (rules_of limits) from.now.config from.now.events ≡ None)
        (λ fault. IsFault (carry_fault (rules_of limits) from.now.config from.now.events) fault) }
{
    carry_state(alloc, from.state(), limits)
}

// The same of a transport's working state.
fn carry_state(alloc: Global, state: &State, limits: Limits) -> Result<Carried, CarryFault>
    ensures xpt { IfOk result (λ r. r.xpt ≡ record { config = state.now.config; rules = rules_of limits; events = carrying state.now.config state.now.events }) }
    ensures numbers { IfOk result (λ r. r.numbers.items ≡ map (λ (p : Passage). p.ccb) (carried state.now.events)) }
    ensures fault { MatchResult result
        (λ _. carry_fault (rules_of limits) state.now.config state.now.events ≡ None)
        (λ fault. IsFault (carry_fault (rules_of limits) state.now.config state.now.events) fault) }
{
    if let Some(fault) = unsettled(state) {
        return Err(fault);
    }
    let stays = unsent_in_order(alloc, state)?;
    let numbers = numbers_of(alloc, &stays)?;
    let events = events_of(alloc, state, &stays)?;
    let xpt = opened_with(alloc, state.config(), limits, &events)?;
    Ok(Carried { xpt, numbers })
}

// The numbers of the stays' CCBs.
fn numbers_of(alloc: Global, stays: &[Passage]) -> Result<Vec<u32>, AllocError>
    ensures { IfOk result (λ numbers. numbers.items ≡ map (λ (p : Passage). p.ccb) stays.now) }
{
    stays.iter().map(|stay| stay.ccb).collect(alloc)
}
