//! A queue of nodes by their distance from where a search began, with a bucket for each distance.

use crate::stop::Stop;
use std::alloc::Global;

/// The most that a distance is, which is far above what nets within the limits need.
const MAX_DISTANCE: u32 = 1_000_000;

// A node, and the entry after it in its bucket.
#[derive(Clone, Copy)]
struct Entry {
    node: u32,
    next: Option<u32>,
}

/// Nodes by distance.
#[derive(Drop)]
pub struct Buckets {
    heads: Vec<Option<u32>>,
    entries: Vec<Entry>,
    first: u32,
    last: u32,
}

impl Buckets {
    /// No nodes.
    pub fn new(alloc: Global) -> Buckets {
        Buckets {
            heads: Vec::new(alloc),
            entries: Vec::new(alloc),
            first: 0,
            last: 0,
        }
    }

    /// Takes all nodes out.
    pub fn clear(&mut self) {
        for distance in self.first..self.last.saturating_add(1) {
            self.set_head(distance, None);
        }
        self.entries.clear();
        self.first = 0;
        self.last = 0;
    }

    /// Puts a node in.
    pub fn push(&mut self, node: u32, distance: u32) -> Result<(), Stop> {
        if distance > MAX_DISTANCE {
            return Err(Stop::GivenUp);
        }
        for _ in self.heads.len()..distance as usize + 1 {
            self.heads.push(None)?;
        }
        self.last = self.last.max(distance);
        self.push_at(node, distance)
    }

    // Puts a node into the bucket of a distance, which is there.
    fn push_at(&mut self, node: u32, distance: u32) -> Result<(), Stop> {
        let number = u32::try_from(self.entries.len()).ok().ok_or(Stop::GivenUp)?;
        let next = self.head(distance);
        self.entries.push(Entry { node, next })?;
        self.set_head(distance, Some(number));
        Ok(())
    }

    /// Takes out a node of least distance. No node is put in afterwards that is nearer.
    pub fn pop(&mut self) -> Option<(u32, u32)> {
        for distance in self.first..self.last.saturating_add(1) {
            if let Some(node) = self.pop_at(distance) {
                self.first = distance;
                return Some((node, distance));
            }
        }
        None
    }

    // Takes a node out of the bucket of a distance.
    fn pop_at(&mut self, distance: u32) -> Option<u32> {
        let number = self.head(distance)?;
        let entry = self.entries.get(number as usize).copied()?;
        self.set_head(distance, entry.next);
        Some(entry.node)
    }

    // The first entry of a bucket, if there is one.
    fn head(&self, distance: u32) -> Option<u32> {
        self.heads.get(distance as usize).copied().flatten()
    }

    fn set_head(&mut self, distance: u32, entry: Option<u32>) {
        if let Some(head) = self.heads.get_mut(distance as usize) {
            *head = entry;
        }
    }
}
