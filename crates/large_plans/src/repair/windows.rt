//! A segment tree of windows for each unit: which stays may be sent in a round.

use std::alloc::{AllocError, Global};

// A window in the list of a tree's node.
#[derive(Clone, Copy)]
struct Entry {
    owner: u32,
    next: Option<u32>,
}

/// The windows of all units. A tree's node stands for some rounds, the root, which is node 1, for all, and the list of a node has
/// the windows that have all of its rounds and not all of those of the node above.
#[derive(Drop)]
pub struct Windows {
    // The number of the first leaf, which is a power of 2 and at least the number of rounds.
    leaves: u32,
    // The first entry of each node's list, unit by unit.
    first: Vec<Option<u32>>,
    entries: Vec<Entry>,
}

impl Windows {
    /// No windows in no rounds.
    pub fn new(alloc: Global) -> Windows {
        Windows {
            leaves: 0,
            first: Vec::new(alloc),
            entries: Vec::new(alloc),
        }
    }

    /// No windows, of so many units in so many rounds.
    pub fn of(alloc: Global, units: usize, rounds: u32) -> Result<Windows, AllocError> {
        let Some(leaves) = rounds.checked_next_power_of_two() else {
            return Err(AllocError);
        };
        let nodes = units.saturating_mul(leaves as usize).saturating_mul(2);
        Ok(Windows {
            leaves,
            first: vec![in alloc; None; nodes]?,
            entries: Vec::new(alloc),
        })
    }

    /// How many entries all lists have together.
    pub fn len(&self) -> usize {
        self.entries.len()
    }

    /// The node that stands for one round. Half a node's number is that of the node above.
    #[inline]
    pub fn leaf(&self, round: u32) -> u32 {
        self.leaves.saturating_add(round)
    }

    /// The first entry of a node's list.
    #[inline]
    pub fn first(&self, unit: u32, node: u32) -> Option<u32> {
        self.first.get(self.place(unit, node)).copied()?
    }

    /// Whose window an entry has, and the next entry of its list.
    #[inline]
    pub fn entry(&self, entry: u32) -> Option<(u32, Option<u32>)> {
        let entry = self.entries.get(entry as usize)?;
        Some((entry.owner, entry.next))
    }

    /// Adds a window from one round to another, with both of them.
    pub fn add(&mut self, unit: u32, owner: u32, first: u32, last: u32) -> Result<(), AllocError> {
        let mut low = self.leaf(first);
        let mut end = self.leaf(last).saturating_add(1);
        for _ in 0..u32::BITS {
            if low >= end {
                break;
            }
            if low % 2 == 1 {
                self.put(unit, low, owner)?;
            }
            if end % 2 == 1 {
                self.put(unit, end.saturating_sub(1), owner)?;
            }
            low = low.saturating_add(1) / 2;
            end /= 2;
        }
        Ok(())
    }

    // Puts a window before the others of a node's list.
    fn put(&mut self, unit: u32, node: u32, owner: u32) -> Result<(), AllocError> {
        let Ok(entry) = u32::try_from(self.entries.len()) else {
            return Err(AllocError);
        };
        let place = self.place(unit, node);
        if let Some(first) = self.first.get_mut(place) {
            let next = *first;
            *first = Some(entry);
            self.entries.push(Entry { owner, next })?;
        }
        Ok(())
    }

    #[inline]
    fn place(&self, unit: u32, node: u32) -> usize {
        (unit as usize)
            .saturating_mul(self.leaves as usize)
            .saturating_mul(2)
            .saturating_add(node as usize)
    }
}
