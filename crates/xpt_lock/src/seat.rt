//! Seats: who makes calls, and what those calls came to.

ghost use Rattle.std.specs.Prelude.{◌≡◌, []};

use crate::receipt::Receipt;
use std::alloc::Global;
use std::marker::Model;
use std::sync::ledger::{Ledger, Share};

/// Who sits in a seat.
#[derive(Clone, Copy, Debug, PartialEq, Eq)]
pub enum SeatName {
    /// The driver of this number.
    Driver(u8),
    /// The worker of this lane.
    Lane(u32),
    /// Who decides on failed CCBs.
    Recovery,
    /// Who opens the rounds.
    Keeper,
}

/// An actor's place at a shared transport, with a receipt for each of its calls that made an event.
#[derive(Drop)]
pub struct Seat<L: Ledger> {
    pub(crate) name: SeatName,
    pub(crate) receipts: Vec<Receipt>,
    pub(crate) share: Share<L>,
}

impl<L: Ledger> Model for Seat<L> {
    ghost use Rattle.std.specs.Prelude.{◌≡◌, vec_len};
    ghost use Rattle.xpt_lock.specs.Seats.{Held};

    ghost Value = { Held };

    ghost view = { λ s. record { name = s.name; receipts = s.receipts.items } };

    ghost invariant = { λ s. (s.share.parts ≡ 1) × (s.share.amount ≡ vec_len s.receipts) };
}

impl<L: Ledger> Seat<L> {
    // A seat without receipts.
    pub(crate) fn new(alloc: Global, name: SeatName, share: Share<L>) -> Seat<L>
        requires part { share.parts ≡ 1 }
        requires none { share.amount ≡ 0 }
        ensures { result ≡ record { name = name; receipts = [] } }
    {
        Seat {
            name,
            receipts: Vec::new(alloc),
            share,
        }
    }

    /// The name that the seat was taken by.
    pub fn name(&self) -> SeatName
        ensures { result ≡ self.now.name }
    {
        self.name
    }

    /// A receipt for each call that made an event, in the order of the calls.
    pub fn receipts(&self) -> &[Receipt]
        ensures { result.now ≡ self.now.receipts }
    {
        &self.receipts
    }
}
