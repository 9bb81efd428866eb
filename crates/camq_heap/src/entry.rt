//! An entry of the heap, and the error of a full one.

use cam_types::Priority;
use std::fmt;
use thiserror::Error;

/// One entry of a queue. Entries stand by priority, and those of one priority by generation.
#[derive(Debug, Drop)]
pub struct Entry<T> {
    /// How urgent it is: the smaller number goes first.
    pub priority: Priority,
    /// Which of two entries of one priority goes first: the lesser. No two entries of a queue share one.
    pub generation: u64,
    /// What waits.
    pub item: T,
}

/// The queue holds as many entries as it may. The item is handed back.
#[derive(Debug, Drop, Error)]
#[error("the queue is full")]
#[error_bound(T: fmt::Debug)]
pub struct QueueFull<T>(pub T);

impl<T> Entry<T> {
    ghost use Rattle.std.specs.Prelude.{◌≡◌, nat_lt};
    ghost use Rattle.camq_heap.specs.Queue.{key};

    /// Where the entry stands: the lesser goes first.
    pub(crate) fn key(&self) -> u128
        ensures { result ≡ key self.now }
    {
        let (priority, generation) = (self.priority.number(), self.generation);
        u128::from(priority) * (1 << 64) + u128::from(generation)
    }

    /// Whether this entry goes first.
    pub(crate) fn is_before(&self, other: &Entry<T>) -> bool
        ensures { result ≡ nat_lt (key self.now) (key other.now) }
    {
        self.key() < other.key()
    }
}
