//! The history of a transport, and the receipts that one thread would get that made all its calls.

ghost use Rattle.std.specs.Prelude.{◌≡◌, ◌≤◌, length, IfOk};
ghost use Rattle.cam_types.specs.declared.limits.TheConstants.{MAX_EVENTS};
ghost use Rattle.xpt_lock.specs.Gathers.{IsPast, due_of};

use crate::receipt::Receipt;
use cam_event::History;
use event_rules::Rules;
use std::alloc::{AllocError, Global};
use xpt_state::Xpt;

// The history of a transport's events, with the receipts that one thread would get for them: they happen again once.
pub(crate) fn replay(alloc: Global, xpt: Xpt) -> Result<(History, Vec<Receipt>), AllocError>
    ensures history { IfOk result (λ both. both.0 ≡ record { config = xpt.config; events = xpt.events }) }
    ensures past { IfOk result (λ both. IsPast both.0) }
    ensures same { IfOk result (λ both. both.1.items ≡ due_of both.0) }
    ensures few { IfOk result (λ both. length both.1.items ≤ MAX_EVENTS) }
{
    let (config, events) = xpt.into_parts();
    let mut again = Xpt::by(alloc, config, Rules::of_history())?;
    let mut receipts = Vec::with_capacity(alloc, events.len())?;
    for event in &events {
        let at = again.events().len() as u32;
        let reply = again.take(*event).unwrap();
        receipts.push(Receipt {
            at,
            event: *event,
            reply,
        })?;
    }
    Ok((again.into_history(alloc)?, receipts))
}
