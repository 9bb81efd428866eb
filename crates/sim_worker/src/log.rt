//! What an actor did in a run.

ghost use Rattle.std.specs.Prelude.{◌≡◌, IfOk};

use std::alloc::{AllocError, Global};
use std::marker::Model;
use std::sync::ledger::Ledger;
use xpt_lock::{Receipt, Seat, SeatName};

/// What an actor did: its name, and a receipt for each of its calls that made an event, in order.
#[derive(Debug, Drop)]
pub struct SeatLog {
    /// Who it is.
    pub name: SeatName,
    /// The receipts.
    pub receipts: Vec<Receipt>,
}

impl Model for SeatLog {
    ghost use Rattle.xpt_lock.specs.Seats.{Held};

    ghost Value = { Held };

    ghost view = { λ s. record { name = s.name; receipts = s.receipts.items } };
}

impl SeatLog {
    /// The log of a seat.
    pub fn of<L: Ledger>(alloc: Global, seat: &Seat<L>) -> Result<SeatLog, AllocError>
        ensures { IfOk result (λ log. log ≡ seat.now) }
    {
        Ok(SeatLog {
            name: seat.name(),
            receipts: seat.receipts().to_vec(alloc)?,
        })
    }
}
