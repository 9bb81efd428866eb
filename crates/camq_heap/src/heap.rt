//! A heap in a vector.
ghost use Rattle.std.specs.Prelude.{◌≡◌, ℕ, ◌+◌, ◌*◌, ◌^◌, ◌<◌, ◌≤◌, ◌∷◌, length, remove, vec_len, vec_capacity, slice_index_or, slice_set};
ghost use Rattle.std.specs.List.Sorted.{IsPermutation};
ghost use Rattle.camq_heap.specs.Heap.{IsHeap};
ghost use Rattle.camq_heap.specs.Order.{IsAtMostDigits};
ghost use Rattle.camq_heap.specs.Queue.{key, Entry};

use crate::entry::Entry;
use crate::sift::{rise, settle, sink};
use cam_types::Priority;

/// Adds an entry to a heap with room for it, and counts the entries that are put at another place.
pub(crate) fn push<T>(entries: &mut Vec<Entry<T>>, entry: Entry<T>) -> u32
    requires heap { IsHeap key entries.old.items }
    requires room { vec_len entries.old < vec_capacity entries.old }
    ensures heap { IsHeap key entries.new.items }
    ensures permutation { IsPermutation (entry ∷ entries.old.items) entries.new.items }
    ensures capacity { vec_capacity entries.new ≡ vec_capacity entries.old }
    ensures moved { IsAtMostDigits result (vec_len entries.old + 1) }
{
    let last = entries.len();
    entries.push_reserved(entry);
    rise(entries, last)
}

/// Takes the first entry out of a heap, and counts the entries that are put at another place.
pub(crate) fn pop<T>(entries: &mut Vec<Entry<T>>) -> (Entry<T>, u32)
    requires heap { IsHeap key entries.old.items }
    requires some { 0 < vec_len entries.old }
    ensures heap { IsHeap key entries.new.items }
    ensures first { result.0 ≡ slice_index_or entries.old.items 0 result.0 }
    ensures permutation { IsPermutation entries.old.items (result.0 ∷ entries.new.items) }
    ensures capacity { vec_capacity entries.new ≡ vec_capacity entries.old }
    ensures moved { IsAtMostDigits result.1 (vec_len entries.old) }
{
    let first = entries.swap_remove(0);
    if entries.is_empty() {
        return (first, 0);
    }
    (first, sink(entries, 0) + 1)
}

/// Gives the entry at place `at` of the array another priority.
pub(crate) fn change<T>(entries: &mut Vec<Entry<T>>, at: usize, priority: Priority)
    requires heap { IsHeap key entries.old.items }
    requires in_range { at < vec_len entries.old }
    ensures heap { IsHeap key entries.new.items }
    ensures permutation { (e : Entry T) → e ≡ slice_index_or entries.old.items at e → IsPermutation (record e { priority = priority } ∷ remove entries.old.items at) entries.new.items }
    ensures capacity { vec_capacity entries.new ≡ vec_capacity entries.old }
{
    entries[at].priority = priority;
    settle(entries, at);
}
