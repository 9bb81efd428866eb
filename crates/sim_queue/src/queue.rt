//! The queue of one adapter, by its public calls.

use crate::fault::{FreezeOverflow, ReleaseTooMany};
use crate::ready::{change_ready, requeue_first};
use crate::row::Row;
use crate::rows::{new_rows, row_of};
use cam_types::{MAX_FREEZES, Priority};
use camq_heap::Camq;
use std::alloc::{AllocError, Global};
use std::marker::Model;

/// An adapter's choice among its devices: which of the ready ones sends next.
///
/// Devices take turns by the priority of their first CCB, then least recently sent to, one never sent to
/// before all others, then by number (the last two are rules of this project). The ready ones stand in a
/// `Camq`, whose first entry is the head: `best_ready` reads it, and a `set_ready` that changes the priority
/// of another counts those that go before it. Nothing grows after `open`.
#[derive(Drop)]
pub struct SimQueue {
    rows: Vec<Row>,
    ready: Camq<u32>,
    openings: u32,
    sent: u32,
    callers: u32,
}

impl Model for SimQueue {
    ghost use Rattle.sim_queue.specs.Adapter.{Adapter};
    ghost use Rattle.sim_queue.specs.Turns.{IsSound};

    ghost Value = { Adapter };

    ghost view = { λ a. record {
      rows = a.rows.items;
      openings = a.openings;
      sent = a.sent;
      callers = a.callers;
    } };

    ghost invariant = { λ a. IsSound a.rows.items a.ready a.callers };
}

impl SimQueue {
    ghost use Rattle.std.specs.Prelude.{◌≡◌, ◌≢◌, ℕ, ◌+◌, ◌-◌, ◌<◌, ◌≤◌, ◌==◌, ◌↔◌, nat_le, not, true, Some, map, IfOk, IsOk, OnOk, OnErr};
    ghost use Rattle.std.specs.List.{AllPairs};
    ghost use Rattle.sim_queue.specs.Adapter.{new_row, is_named, with_priority, with_send, can_send, best_ready};

    /// A queue for these devices, each named once, with that many openings in each round. No device is
    /// ready, and none was sent to.
    pub fn open(alloc: Global, openings: u32, devices: &[u32]) -> Result<SimQueue, AllocError>
        requires { AllPairs (λ x y. x ≢ y) devices.now }
        ensures { IfOk result (λ a. a ≡ record { rows = map new_row devices.now; openings = openings; sent = 0; callers = 0 }) }
    {
        Ok(SimQueue {
            rows: new_rows(alloc, devices)?,
            ready: Camq::with_capacity(alloc, devices.len())?,
            openings,
            sent: 0,
            callers: 0,
        })
    }

    /// Whether the device is one of the adapter's.
    pub fn has_device(&self, device: u32) -> bool
        ensures { result ≡ is_named device self.now.rows }
    {
        self.rows.iter().any(|row| row.device == device)
    }

    /// How many commands may be sent in each round.
    pub fn openings(&self) -> u32
        ensures { result ≡ self.now.openings }
    {
        self.openings
    }

    /// How many commands were sent in this round.
    pub fn sent(&self) -> u32
        ensures { result ≡ self.now.sent }
    {
        self.sent
    }

    /// Whether the openings of this round are used.
    pub fn used(&self) -> bool
        ensures { result ≡ nat_le self.now.openings self.now.sent }
    {
        self.openings <= self.sent
    }

    /// The freezes that hold, at most 65,535.
    pub fn callers(&self) -> u32
        ensures value { result ≡ self.now.callers }
        ensures most { result ≤ 65535 }
    {
        self.callers
    }

    /// Whether a freeze holds.
    pub fn frozen(&self) -> bool
        ensures { result ≡ not (self.now.callers == 0) }
    {
        self.callers != 0
    }

    /// Says that one of the adapter's devices is ready at this priority, or isn't ready.
    pub fn set_ready(&mut self, device: u32, priority: Option<Priority>)
        requires { is_named device self.old.rows ≡ true }
        ensures { self.new ≡ record self.old { rows = with_priority device priority self.old.rows } }
    {
        let at = row_of(&self.rows, device);
        let row = Row {
            priority,
            ..self.rows[at]
        };
        change_ready(&mut self.ready, &self.rows, at, row.priority);
        self.rows[at] = row;
    }

    /// The device whose turn it is; none while the adapter is frozen or has used its openings.
    pub fn best_ready(&self) -> Option<u32>
        ensures { result ≡ best_ready self.now }
    {
        if !self.can_send() {
            return None;
        }
        let first = self.ready.first()?;
        Some(first.item)
    }

    // Whether no freeze holds and an opening of this round is left.
    fn can_send(&self) -> bool
        ensures { result ≡ can_send self.now }
    {
        self.callers == 0 && self.sent < self.openings
    }

    /// Notes a send to the device whose turn it is. `place` is how many events there were before it, at
    /// most 65,534. The device stays ready at its priority until `set_ready`.
    pub fn send(&mut self, device: u32, place: u32)
        requires turn { best_ready self.old ≡ Some device }
        requires place { place < 65535 }
        ensures { self.new ≡ record self.old { rows = with_send device place self.old.rows; sent = self.old.sent + 1 } }
    {
        let at = row_of(&self.rows, device);
        let turn = place + 1;
        requeue_first(&mut self.ready, &self.rows, at, turn);
        self.rows[at].turn = turn;
        self.sent += 1;
    }

    /// Freezes the adapter `count` times more: at most 65,535 times in all, else nothing changes.
    pub fn freeze(&mut self, count: u32) -> Result<(), FreezeOverflow>
        ensures few { IsOk result ↔ (self.old.callers + count ≤ 65535) }
        ensures ok { OnOk result (self.new ≡ record self.old { callers = self.old.callers + count }) }
        ensures overflow { OnErr result (self.new ≡ self.old) }
    {
        if count > MAX_FREEZES - self.callers {
            return Err(FreezeOverflow);
        }
        self.callers += count;
        Ok(())
    }

    /// Takes one freeze away. Where none holds, nothing changes.
    pub fn release(&mut self) -> Result<(), ReleaseTooMany>
        ensures some { IsOk result ↔ (0 < self.old.callers) }
        ensures ok { OnOk result (self.new ≡ record self.old { callers = self.old.callers - 1 }) }
        ensures too_many { OnErr result (self.new ≡ self.old) }
    {
        if self.callers == 0 {
            return Err(ReleaseTooMany);
        }
        self.callers -= 1;
        Ok(())
    }

    /// Opens the next round, in which the openings are there again.
    pub fn next_round(&mut self)
        ensures { self.new ≡ record self.old { sent = 0 } }
    {
        self.sent = 0;
    }
}
