//! Queues by key.

use slab::Slab;
use std::alloc::{AllocError, Global};
use std::collections::BTreeMap;

#[derive(Clone, Copy)]
struct Ends {
    first: usize,
    last: usize,
}

#[derive(Clone, Copy)]
struct Link {
    value: usize,
    next: Option<usize>,
}

/// A queue of numbers for each key, first in first out. A call takes a time that grows as the logarithm of the number of keys,
/// whatever the keys are.
#[derive(Drop)]
pub struct Queues<K: Copy + Ord + Drop> {
    ends: BTreeMap<K, Ends>,
    links: Slab<Link>,
}

impl<K: Copy + Ord + Drop> Queues<K> {
    /// Empty queues.
    pub fn new(alloc: Global) -> Queues<K> {
        Queues {
            ends: BTreeMap::new(alloc),
            links: Slab::new(alloc),
        }
    }

    /// Adds a number at the end of a key's queue.
    pub fn push(&mut self, key: K, value: usize) -> Result<(), AllocError> {
        let last = self.links.insert(Link { value, next: None })?;
        if let Some(before) = self.ends.insert(key, Ends { first: last, last })? {
            if let Some(link) = self.links.get_mut(before.last) {
                link.next = Some(last);
            }
            if let Some(ends) = self.ends.get_mut(&key) {
                ends.first = before.first;
            }
        }
        Ok(())
    }

    /// Takes the first number of a key's queue.
    pub fn pop(&mut self, key: &K) -> Option<usize> {
        let ends = self.ends.get(key).copied()?;
        let link = self.links.try_remove(ends.first)?;
        match link.next {
            None => {
                self.ends.remove(key);
            }
            Some(first) => {
                if let Some(ends) = self.ends.get_mut(key) {
                    ends.first = first;
                }
            }
        }
        Some(link.value)
    }
}
