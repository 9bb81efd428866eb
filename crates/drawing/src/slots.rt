//! Slots: of stays that are drawn in one slot no two are there in the same round.

use std::alloc::{AllocError, Global};
use std::cmp::Reverse;
use std::collections::BinaryHeap;

/// The slots of a device.
#[derive(Drop)]
pub(crate) struct Slots {
    // The taken ones, each after the last round for which it is taken.
    taken: BinaryHeap<Reverse<(u32, u32)>>,
    // Those that are free again.
    free: BinaryHeap<Reverse<u32>>,
    count: u32,
}

impl Slots {
    /// None so far.
    pub(crate) fn new(alloc: Global) -> Slots {
        Slots {
            taken: BinaryHeap::new(alloc),
            free: BinaryHeap::new(alloc),
            count: 0,
        }
    }

    /// How many there are.
    pub(crate) fn count(&self) -> u32 {
        self.count
    }

    /// Takes the first slot that is free from one round to another, or a new one. The first round has to be at least that of
    /// the call before.
    pub(crate) fn take(&mut self, first: u32, last: u32) -> Result<u32, AllocError> {
        self.give_back(first)?;
        let slot = match self.free.pop() {
            Some(Reverse(slot)) => slot,
            None => self.count,
        };
        self.count = self.count.max(slot.saturating_add(1));
        self.taken.push(Reverse((last, slot)))?;
        Ok(slot)
    }

    // Frees the slots that are taken for rounds before this one alone.
    fn give_back(&mut self, round: u32) -> Result<(), AllocError> {
        for _ in 0..self.taken.len() {
            match self.taken.peek() {
                Some(Reverse((last, _))) if *last < round => {}
                _ => return Ok(()),
            }
            if let Some(Reverse((_, slot))) = self.taken.pop() {
                self.free.push(Reverse(slot))?;
            }
        }
        Ok(())
    }
}
