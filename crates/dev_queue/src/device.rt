//! The queue of one device, by its public calls.

use crate::enter::{enter_each, enter_one};
use crate::fault::{FreezeOverflow, QueueFull, ReleaseTooMany};
use crate::waiting::Waiting;
use cam_types::{MAX_FREEZES, Priority};
use camq_heap::Camq;
use std::alloc::{AllocError, Global};
use std::marker::Model;

/// The queue of one device: what waits, what enters at the next round, openings, and freezes.
///
/// Time is counted in rounds. A command that is sent uses one opening for the whole round, whether it
/// completes or not. Nothing grows after `open`.
#[derive(Drop)]
pub struct DevQueue {
    waiting: Camq<u32>,
    later: Vec<Waiting>,
    capacity: usize,
    openings: u32,
    next_openings: u32,
    sent: u32,
    in_flight: u32,
    callers: u32,
    errors: u32,
    entered: u32,
}

impl Model for DevQueue {
    ghost use Rattle.std.specs.Prelude.{vec_capacity};
    ghost use Rattle.dev_queue.specs.Device.{Device};
    ghost use Rattle.dev_queue.specs.Order.{waiting_of};
    ghost use Rattle.dev_queue.specs.Sound.{IsSound};

    ghost Value = { Device };

    ghost view = { λ d. record {
      waiting = waiting_of d.waiting.entries;
      later = d.later.items;
      capacity = d.capacity;
      openings = d.openings;
      next_openings = d.next_openings;
      sent = d.sent;
      in_flight = d.in_flight;
      callers = d.callers;
      errors = d.errors;
      entered = d.entered;
    } };

    ghost invariant = { λ d. IsSound d.waiting d.later.items d.capacity (vec_capacity d.later) d.in_flight d.callers d.errors d.entered };
}

impl DevQueue {
    ghost use Rattle.std.specs.Prelude.{◌≡◌, ℕ, ◌+◌, ◌-◌, ◌^◌, ◌<◌, ◌≤◌, ◌==◌, ◌↔◌, true, if◌then◌else◌, [], ◌∷◌, ◌++◌, Some, length, drop, slice_get, IsTrue, IsOk, IfOk, OnOk, OnErr};
    ghost use Rattle.std.specs.List.Sorted.{IsNonDecreasingBy};
    ghost use Rattle.dev_queue.specs.Device.{enter, enter_all, held_count, is_frozen, is_ready};

    /// An empty queue, with that many openings in each round, and with memory for `capacity` CCBs.
    pub fn open(alloc: Global, openings: u32, capacity: usize) -> Result<DevQueue, AllocError>
        ensures { IfOk result (λ d. d ≡ record { waiting = []; later = []; capacity = capacity; openings = openings; next_openings = openings; sent = 0; in_flight = 0; callers = 0; errors = 0; entered = 0 }) }
    {
        Ok(DevQueue {
            waiting: Camq::with_capacity(alloc, capacity)?,
            later: Vec::with_capacity(alloc, capacity)?,
            capacity,
            openings,
            next_openings: openings,
            sent: 0,
            in_flight: 0,
            callers: 0,
            errors: 0,
            entered: 0,
        })
    }

    /// How many CCBs wait, for this round or the next.
    pub fn len(&self) -> usize
        ensures value { result ≡ held_count self.now }
        ensures most { result ≤ self.now.capacity }
    {
        self.waiting.len() + self.later.len()
    }

    /// Whether none waits, for this round or the next.
    pub fn is_empty(&self) -> bool
        ensures { IsTrue result ↔ (held_count self.now ≡ 0) }
    {
        self.len() == 0
    }

    /// How many CCBs are queued in this round.
    pub fn queued(&self) -> usize
        ensures { result ≡ length self.now.waiting }
    {
        self.waiting.len()
    }

    /// How many were requeued for the next round.
    pub fn requeued(&self) -> usize
        ensures { result ≡ length self.now.later }
    {
        self.later.len()
    }

    /// How many CCBs may wait, for this round and the next.
    pub fn capacity(&self) -> usize
        ensures { result ≡ self.now.capacity }
    {
        self.capacity
    }

    /// Whether as many CCBs wait as may.
    pub fn is_full(&self) -> bool
        ensures { IsTrue result ↔ (self.now.capacity ≤ held_count self.now) }
    {
        self.len() >= self.capacity
    }

    /// How many CCBs were put in so far, those for a next round among them.
    pub fn entered(&self) -> u32
        ensures { result ≡ self.now.entered }
    {
        self.entered
    }

    /// How many commands may be sent in this round.
    pub fn openings(&self) -> u32
        ensures { result ≡ self.now.openings }
    {
        self.openings
    }

    /// How many may be sent in the next round.
    pub fn next_openings(&self) -> u32
        ensures { result ≡ self.now.next_openings }
    {
        self.next_openings
    }

    /// How many commands were sent in this round.
    pub fn sent(&self) -> u32
        ensures { result ≡ self.now.sent }
    {
        self.sent
    }

    /// How many sent commands haven't completed.
    pub fn in_flight(&self) -> u32
        ensures { result ≡ self.now.in_flight }
    {
        self.in_flight
    }

    /// The freezes by callers that hold, at most 65,535.
    pub fn callers(&self) -> u32
        ensures value { result ≡ self.now.callers }
        ensures most { result ≤ 65535 }
    {
        self.callers
    }

    /// The freezes by errors that hold: one for each that hasn't been resolved.
    pub fn errors(&self) -> u32
        ensures { result ≡ self.now.errors }
    {
        self.errors
    }

    /// Whether a freeze of either kind holds.
    pub fn frozen(&self) -> bool
        ensures { result ≡ is_frozen self.now }
    {
        self.callers != 0 || self.errors != 0
    }

    /// Whether a command may be sent: one waits, no freeze holds, and an opening of this round is left.
    pub fn ready(&self) -> bool
        ensures { result ≡ is_ready self.now }
    {
        !self.waiting.is_empty() && !self.frozen() && self.sent < self.openings
    }

    /// The CCB that is sent next: the most urgent, and of these the one that entered first. None after it
    /// in the queue is more urgent than one before.
    pub fn first(&self) -> Option<Waiting>
        ensures value { result ≡ slice_get self.now.waiting 0 }
        ensures sorted { IsNonDecreasingBy (λ w. w.priority) self.now.waiting }
    {
        match self.waiting.first() {
            Some(entry) => Some(Waiting {
                ccb: entry.item,
                priority: entry.priority,
            }),
            None => None,
        }
    }

    /// Puts a CCB after all that are as urgent. Where as many wait as may, nothing changes.
    pub fn insert(&mut self, ccb: u32, priority: Priority) -> Result<(), QueueFull>
        requires { self.old.entered < 2 ^ 32 - 1 }
        ensures room { IsOk result ↔ (held_count self.old < self.old.capacity) }
        ensures ok { OnOk result (self.new ≡ record self.old { waiting = enter self.old.waiting (record { ccb = ccb; priority = priority }); entered = self.old.entered + 1 }) }
        ensures full { OnErr result (self.new ≡ self.old) }
    {
        if self.is_full() {
            return Err(QueueFull);
        }
        let generation = self.next_generation();
        enter_one(&mut self.waiting, generation, Waiting { ccb, priority });
        self.entered += 1;
        Ok(())
    }

    /// Keeps a CCB for the next round, which it enters before anything that is inserted in that round.
    /// Where as many wait as may, nothing changes.
    pub fn requeue(&mut self, ccb: u32, priority: Priority) -> Result<(), QueueFull>
        requires { self.old.entered < 2 ^ 32 - 1 }
        ensures room { IsOk result ↔ (held_count self.old < self.old.capacity) }
        ensures ok { OnOk result (self.new ≡ record self.old { later = self.old.later ++ record { ccb = ccb; priority = priority } ∷ []; entered = self.old.entered + 1 }) }
        ensures full { OnErr result (self.new ≡ self.old) }
    {
        if self.is_full() {
            return Err(QueueFull);
        }
        self.later.push_reserved(Waiting { ccb, priority });
        self.entered += 1;
        Ok(())
    }

    /// Sends the first CCB of a device that is ready. One that freezes its queue adds a caller's freeze.
    pub fn send(&mut self, qfreeze: bool) -> Waiting
        requires { is_ready self.old ≡ true }
        ensures first { slice_get self.old.waiting 0 ≡ Some result }
        ensures rest { self.new ≡ record self.old { waiting = drop 1 self.old.waiting; sent = self.old.sent + 1; in_flight = self.old.in_flight + 1; callers = self.old.callers + (if qfreeze then 1 else 0) } }
    {
        self.sent += 1;
        self.in_flight += 1;
        self.callers += u32::from(qfreeze);
        match self.waiting.remove_first() {
            Some(entry) => Waiting {
                ccb: entry.item,
                priority: entry.priority,
            },
            None => unreachable!(),
        }
    }

    /// Notes that a command in flight has completed. An error that freezes the device adds one until it is
    /// resolved.
    pub fn done(&mut self, freezes: bool)
        requires { 0 < self.old.in_flight }
        ensures { self.new ≡ record self.old { in_flight = self.old.in_flight - 1; errors = self.old.errors + (if freezes then 1 else 0) } }
    {
        self.in_flight -= 1;
        self.errors += u32::from(freezes);
    }

    /// Takes away the freeze of one error.
    pub fn resolve(&mut self)
        requires { 0 < self.old.errors }
        ensures { self.new ≡ record self.old { errors = self.old.errors - 1 } }
    {
        self.errors -= 1;
    }

    /// Freezes the device `count` times more for callers: at most 65,535 times in all, else nothing changes.
    pub fn freeze(&mut self, count: u32) -> Result<(), FreezeOverflow>
        ensures few { IsOk result ↔ (self.old.callers + count ≤ 65535) }
        ensures ok { OnOk result (self.new ≡ record self.old { callers = self.old.callers + count }) }
        ensures overflow { OnErr result (self.new ≡ self.old) }
    {
        if count > MAX_FREEZES - self.callers {
            return Err(FreezeOverflow);
        }
        self.callers += count;
        Ok(())
    }

    /// Takes away `count` of the callers' freezes, and never one of an error. Where there are fewer,
    /// nothing changes.
    pub fn release(&mut self, count: u32) -> Result<(), ReleaseTooMany>
        ensures enough { IsOk result ↔ (count ≤ self.old.callers) }
        ensures ok { OnOk result (self.new ≡ record self.old { callers = self.old.callers - count }) }
        ensures too_many { OnErr result (self.new ≡ self.old) }
    {
        if count > self.callers {
            return Err(ReleaseTooMany);
        }
        self.callers -= count;
        Ok(())
    }

    /// Sets how many commands may be sent in each round from the next on.
    pub fn adjust(&mut self, openings: u32)
        ensures { self.new ≡ record self.old { next_openings = openings } }
    {
        self.next_openings = openings;
    }

    /// Opens the next round of a device with no command in flight: what was kept for it enters, and the
    /// openings are there again.
    pub fn next_round(&mut self)
        requires { self.old.in_flight ≡ 0 }
        ensures { self.new ≡ record self.old { waiting = enter_all self.old.waiting self.old.later; later = []; openings = self.old.next_openings; sent = 0 } }
    {
        let generation = self.next_generation();
        enter_each(&mut self.waiting, generation, &self.later);
        self.later.clear();
        self.openings = self.next_openings;
        self.sent = 0;
    }

    // The generation of the next CCB that enters the heap: how many have entered it so far.
    fn next_generation(&self) -> u64
        ensures { result + length self.now.later ≡ self.now.entered }
    {
        u64::from(self.entered) - self.later.len() as u64
    }
}
