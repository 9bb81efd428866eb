//! A heap with entries at random priorities, and counts of what its calls move.

ghost use Rattle.std.specs.Prelude.{◌<◌, ◌+◌, length};
ghost use Rattle.dev_queue.specs.Order.{AllBefore};

use cam_types::{MAX_PRIORITY, Priority};
use camq_heap::Camq;
use rand_core::Rng;
use rand_pcg::Pcg32;
use std::alloc::{AllocError, Global};
use std::time::Duration;

/// How many calls of a kind there were, how many entries they moved in all and at most, and how long they took.
#[derive(Clone, Copy, Debug, Default)]
pub struct Tally {
    pub calls: u64,
    pub moved: u64,
    pub most: u32,
    pub time: Duration,
}

impl Tally {
    fn count(&mut self, moved: u32) {
        self.calls = self.calls.saturating_add(1);
        self.moved = self.moved.saturating_add(u64::from(moved));
        self.most = self.most.max(moved);
    }
}

/// A queue with entries at random priorities, the same in each run.
#[derive(Drop)]
pub struct Load {
    queue: Camq<u32>,
    generation: u64,
    random: Pcg32,

    ghost before: { AllBefore generation queue.entries },
}

impl Load {
    /// An empty queue with room for that many entries.
    pub fn new(alloc: Global, capacity: u32) -> Result<Load, AllocError> {
        Ok(Load {
            queue: Camq::with_capacity(alloc, capacity as usize)?,
            generation: 0,
            random: Pcg32::new(42, 54),
        })
    }

    /// Inserts that many entries, as far as there is room.
    pub fn insert(&mut self, count: u32, tally: &mut Tally) {
        for _ in 0..count {
            self.insert_one();
            tally.count(self.queue.moved());
        }
    }

    /// Removes the first entry that many times, as far as there are entries.
    pub fn remove(&mut self, count: u32, tally: &mut Tally) {
        for _ in 0..count {
            self.remove_one();
            tally.count(self.queue.moved());
        }
    }

    fn insert_one(&mut self) {
        let generation = self.generation;
        let Some(next) = generation.checked_add(1) else {
            return;
        };
        if self.queue.is_full() {
            return;
        }
        insert_behind(&mut self.queue, any_priority(&mut self.random), generation);
        self.generation = next;
    }

    fn remove_one(&mut self) {
        self.queue.remove_first();
    }
}

// Inserts an entry that came after all there are.
fn insert_behind(queue: &mut Camq<u32>, priority: Priority, generation: u64)
    requires before { AllBefore generation queue.old.entries }
    requires room { length queue.old.entries < queue.old.capacity }
    ensures { AllBefore (generation + 1) queue.new.entries }
{
    queue.insert_reserved(priority, generation, 0);
}

fn any_priority(random: &mut Pcg32) -> Priority {
    let Ok(priority) = Priority::new(random.next_u32() % (MAX_PRIORITY + 1)) else {
        unreachable!()
    };
    priority
}
