//! One history of what all seats did.

ghost use Rattle.xpt_lock.specs.Gathers.{IsGathered, IsGatheredOf};

use crate::compare::compare;
use crate::fault::GatherFault;
use crate::replay::replay;
use crate::seat::Seat;
use crate::shared::SharedXpt;
use cam_event::History;
use std::alloc::Global;
use std::sync::ledger::Ledger;
use xpt_state::Xpt;

impl<L: Ledger> SharedXpt<L> {
    /// The history of all that the seats did: legal, and such that one thread that makes its calls in order gets the seats'
    /// receipts, each once and each seat's in its order.
    ///
    /// A seat that is missing leaves places that no receipt names, and a seat of another transport has receipts that don't
    /// fit. After a fault the transport and the seats are gone.
    pub fn gather(self, alloc: Global, seats: Vec<Seat<L>>) -> Result<History, GatherFault>
        ensures { IsGathered seats.items result }
    {
        gathered(alloc, self.into_xpt(), &seats)
    }
}

// The transport's history, if the seats' receipts are those that one thread would get for it.
fn gathered<L: Ledger>(alloc: Global, xpt: Xpt, seats: &[Seat<L>]) -> Result<History, GatherFault>
    ensures { IsGatheredOf (record { config = xpt.config; events = xpt.events }) seats.now result }
{
    let (history, due) = replay(alloc, xpt)?;
    let mut named = Vec::from_elem(alloc, false, due.len())?;
    compare(&due, &mut named, seats)?;
    Ok(history)
}
