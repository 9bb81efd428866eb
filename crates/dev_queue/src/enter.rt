//! CCBs enter a queue, each after those that are as urgent.
ghost use Rattle.std.specs.Prelude.{◌≡◌, ℕ, ◌+◌, ◌^◌, ◌<◌, ◌≤◌, length};
ghost use Rattle.dev_queue.specs.Device.{enter, enter_all};
ghost use Rattle.dev_queue.specs.Order.{waiting_of, AllBefore};

use crate::waiting::Waiting;
use camq_heap::Camq;

/// Puts a CCB after all that entered before it and are as urgent. A queue with room, whose generations are all below this one.
pub(crate) fn enter_one(queue: &mut Camq<u32>, generation: u64, entry: Waiting)
    requires room { length queue.old.entries < queue.old.capacity }
    requires before { AllBefore generation queue.old.entries }
    requires next { generation + 1 < 2 ^ 64 }
    ensures entries { waiting_of queue.new.entries ≡ enter (waiting_of queue.old.entries) entry }
    ensures before { AllBefore (generation + 1) queue.new.entries }
    ensures len { length queue.new.entries ≡ length queue.old.entries + 1 }
    ensures capacity { queue.new.capacity ≡ queue.old.capacity }
{
    queue.insert_reserved(entry.priority, generation, entry.ccb);
}

/// Puts CCBs in one after another, the first at this generation.
pub(crate) fn enter_each(queue: &mut Camq<u32>, generation: u64, entries: &[Waiting])
    requires room { length queue.old.entries + length entries.now ≤ queue.old.capacity }
    requires before { AllBefore generation queue.old.entries }
    requires next { generation + length entries.now < 2 ^ 64 }
    ensures entries { waiting_of queue.new.entries ≡ enter_all (waiting_of queue.old.entries) entries.now }
    ensures before { AllBefore (generation + length entries.now) queue.new.entries }
    ensures len { length queue.new.entries ≡ length queue.old.entries + length entries.now }
    ensures capacity { queue.new.capacity ≡ queue.old.capacity }
{
    let mut next = generation;
    for entry in entries {
        enter_one(queue, next, *entry);
        next += 1;
    }
}
