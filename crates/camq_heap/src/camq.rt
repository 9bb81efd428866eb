//! The queue: a binary heap in one array.
use crate::entry::{Entry, QueueFull};
use crate::find::{any_generation, find, take};
use crate::heap;
use cam_types::Priority;
use std::alloc::{AllocError, Global};
use std::marker::Model;

/// A queue of at most as many entries as it was made for, the most urgent first.
///
/// Entries stand by priority, and those of one priority by generation. A place in that order is a number
/// below `len`. Nothing grows after `with_capacity`.
#[derive(Drop)]
pub struct Camq<T> {
    entries: Vec<Entry<T>>,
    capacity: usize,
    moved: u32,
}

impl<T> Model for Camq<T> {
    ghost use Rattle.std.specs.Prelude.{vec_capacity};
    ghost use Rattle.camq_heap.specs.Queue.{Queue, key, IsSound};
    ghost use Rattle.camq_heap.specs.Order.{in_order};

    ghost Value = { Queue T };

    ghost view = { λ q. record {
      entries = in_order key q.entries.items;
      capacity = q.capacity;
      moved = q.moved;
    } };

    ghost invariant = { λ q. IsSound q.entries.items q.capacity (vec_capacity q.entries) };
}

impl<T> Camq<T> {
    ghost use Rattle.std.specs.Prelude.{◌≡◌, ℕ, ◌+◌, ◌-◌, ◌*◌, ◌^◌, ◌<◌, ◌≤◌, ◌==◌, ◌↔◌, false, [], length, drop, remove, slice_get, IsTrue, IsOk, IfOk, IfErr, IfNone, OnOk, OnErr, OnSome};
    ghost use Rattle.std.specs.Option.{option_copied};
    ghost use Rattle.camq_heap.specs.Order.{place, IsRising, IsAtMostDigits};
    ghost use Rattle.camq_heap.specs.Queue.{key, has_generation, change_priority as with_priority};

    /// An empty queue for at most `capacity` entries, with memory for them.
    pub fn with_capacity(alloc: Global, capacity: usize) -> Result<Camq<T>, AllocError>
        ensures { IfOk result (λ q. q ≡ record { entries = []; capacity = capacity; moved = 0 }) }
    {
        Ok(Camq {
            entries: Vec::with_capacity(alloc, capacity)?,
            capacity,
            moved: 0,
        })
    }

    /// How many entries it holds.
    pub fn len(&self) -> usize
        ensures value { result ≡ length self.now.entries }
        ensures most { result ≤ self.now.capacity }
    {
        self.entries.len()
    }

    /// Whether it holds none.
    pub fn is_empty(&self) -> bool
        ensures { result ≡ (length self.now.entries == 0) }
    {
        self.entries.is_empty()
    }

    /// How many entries it may hold.
    pub fn capacity(&self) -> usize
        ensures { result ≡ self.now.capacity }
    {
        self.capacity
    }

    /// Whether it holds as many entries as it may.
    pub fn is_full(&self) -> bool
        ensures { IsTrue result ↔ (self.now.capacity ≤ length self.now.entries) }
    {
        self.len() >= self.capacity
    }

    /// Whether some entry has this generation.
    pub fn has_generation(&self, generation: u64) -> bool
        ensures { result ≡ has_generation generation self.now.entries }
    {
        any_generation(&self.entries, generation)
    }

    /// How many entries the last `insert` or `remove_first` that changed the queue put at another place of
    /// the array, an exchange counted once; 0 before any. `remove_at` and `change_priority` leave it.
    pub fn moved(&self) -> u32
        ensures { result ≡ self.now.moved }
    {
        self.moved
    }

    /// The most urgent entry. Entries rise by priority and generation.
    pub fn first(&self) -> Option<&Entry<T>>
        ensures value { option_copied result ≡ slice_get self.now.entries 0 }
        ensures rising { IsRising key self.now.entries }
    {
        self.entries.first()
    }

    /// Puts an entry where its priority and generation, which is no other entry's, have it stand. Where the
    /// queue is full it stays as it is, and the item comes back.
    pub fn insert(
        &mut self,
        priority: Priority,
        generation: u64,
        item: T,
    ) -> Result<(), QueueFull<T>>
        requires { has_generation generation self.old.entries ≡ false }
        ensures room { IsOk result ↔ (length self.old.entries < self.old.capacity) }
        ensures ok { OnOk result (self.new ≡ record self.old { entries = place key (record { priority = priority; generation = generation; item = item }) self.old.entries; moved = self.new.moved }) }
        ensures moved { OnOk result (IsAtMostDigits self.new.moved (length self.old.entries + 1)) }
        ensures full { OnErr result (self.new ≡ self.old) }
        ensures item { IfErr result (λ e. e.0 ≡ item) }
    {
        if self.is_full() {
            return Err(QueueFull(item));
        }
        self.insert_reserved(priority, generation, item);
        Ok(())
    }

    /// `insert` for a caller that knows of room, which cannot fail.
    pub fn insert_reserved(&mut self, priority: Priority, generation: u64, item: T)
        requires new_generation { has_generation generation self.old.entries ≡ false }
        requires room { length self.old.entries < self.old.capacity }
        ensures placed { self.new ≡ record self.old { entries = place key (record { priority = priority; generation = generation; item = item }) self.old.entries; moved = self.new.moved } }
        ensures moved { IsAtMostDigits self.new.moved (length self.old.entries + 1) }
    {
        let entry = Entry {
            priority,
            generation,
            item,
        };
        self.moved = heap::push(&mut self.entries, entry);
    }

    /// Takes the most urgent entry out, and stays as it is where there is none.
    pub fn remove_first(&mut self) -> Option<Entry<T>>
        ensures first { result ≡ slice_get self.old.entries 0 }
        ensures rest { self.new ≡ record self.old { entries = drop 1 self.old.entries; moved = self.new.moved } }
        ensures moved { OnSome result (IsAtMostDigits self.new.moved (length self.old.entries)) }
        ensures empty { IfNone result (self.new ≡ self.old) }
    {
        if self.entries.is_empty() {
            return None;
        }
        let (first, moved) = heap::pop(&mut self.entries);
        self.moved = moved;
        Some(first)
    }

    /// Takes out the entry at place `i` of the order. The first takes the time of `remove_first`. For another, all are put in
    /// order first and stay so, in a time that grows as `len` times its logarithm at worst, and as `len` where they are
    /// in order already.
    pub fn remove_at(&mut self, i: usize) -> Entry<T>
        requires { i < length self.old.entries }
        ensures entry { slice_get self.old.entries i ≡ Some result }
        ensures rest { self.new ≡ record self.old { entries = remove self.old.entries i } }
    {
        take(&mut self.entries, i)
    }

    /// Gives the entry at place `i` of the order another priority, and puts it where it stands then. It takes the time
    /// of `remove_at`.
    pub fn change_priority(&mut self, i: usize, priority: Priority)
        requires { i < length self.old.entries }
        ensures { self.new ≡ record self.old { entries = with_priority self.old.entries i priority } }
    {
        find(&mut self.entries, i);
        heap::change(&mut self.entries, i, priority);
    }
}
