//! Events one by one into a fresh transport.

ghost use Rattle.std.specs.Prelude.{◌≡◌, [], None, Some, MatchResult};
ghost use Rattle.std.specs.Option.{option_map};
ghost use Rattle.event_rules.specs.Legal.{rules_of};
ghost use Rattle.xpt_carry.specs.Carry.{first_refusal, IsFault};
ghost use Rattle.xpt_carry.specs.declared.fault.CarryFault.TheVariants.{Refused};

use crate::fault::CarryFault;
use cam_types::{Config, Limits};
use event_rules::{Event, Refusal};
use std::alloc::Global;
use xpt_state::Xpt;

/// A fresh transport that has taken the events; or why the first of them is refused that is.
pub(crate) fn opened_with(
    alloc: Global,
    config: &Config,
    limits: Limits,
    events: &[Event],
) -> Result<Xpt, CarryFault>
    ensures { MatchResult result
        (λ xpt. (first_refusal (rules_of limits) config.now events.now ≡ None) × (xpt ≡ record { config = config.now; rules = rules_of limits; events = events.now }))
        (λ fault. IsFault (option_map Refused (first_refusal (rules_of limits) config.now events.now)) fault) }
{
    let mut xpt = Xpt::open(alloc, config.copy(alloc)?, limits)?;
    match take_all(&mut xpt, events) {
        Ok(()) => Ok(xpt),
        Err(why) => Err(CarryFault::Refused(why)),
    }
}

// Has a transport to which nothing has happened take the events, up to the first that is refused.
fn take_all(xpt: &mut Xpt, events: &[Event]) -> Result<(), Refusal>
    requires { xpt.old.events ≡ [] }
    ensures { MatchResult result
        (λ _. (first_refusal xpt.old.rules xpt.old.config events.now ≡ None) × (xpt.new ≡ record xpt.old { events = events.now }))
        (λ why. first_refusal xpt.old.rules xpt.old.config events.now ≡ Some why) }
{
    for event in events {
        if let Err(why) = xpt.take(*event) {
            return Err(why);
        }
    }
    Ok(())
}
