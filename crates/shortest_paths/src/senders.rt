//! Which nodes send stays to which: for each node a list of those that send to it.

use crate::stop::Stop;
use std::alloc::Global;

// The first node that sends to this one, and the neighbours of this one in the list that it is in.
#[derive(Clone, Copy)]
struct Links {
    first: Option<u32>,
    next: Option<u32>,
    previous: Option<u32>,
}

/// A list for each node of the nodes that send to it. A node sends to one at most.
#[derive(Drop)]
pub struct Senders {
    links: Vec<Links>,
}

impl Senders {
    /// No list.
    pub fn new(alloc: Global) -> Senders {
        Senders {
            links: Vec::new(alloc),
        }
    }

    /// Adds an empty list for one node more.
    pub fn push(&mut self) -> Result<(), Stop> {
        self.links.push(Links {
            first: None,
            next: None,
            previous: None,
        })?;
        Ok(())
    }

    /// The first node that sends to this one.
    pub fn first(&self, node: u32) -> Option<u32> {
        self.links.get(node as usize)?.first
    }

    /// The node after this one in its list.
    pub fn next(&self, node: u32) -> Option<u32> {
        self.links.get(node as usize)?.next
    }

    /// Puts a node, which is in no list, into the list of another.
    pub fn add(&mut self, node: u32, to: u32) {
        let next = self.first(to);
        self.set_next(node, next);
        self.set_previous(node, None);
        if let Some(next) = next {
            self.set_previous(next, Some(node));
        }
        self.set_first(to, Some(node));
    }

    /// Takes a node out of the list of another.
    pub fn remove(&mut self, node: u32, to: u32) {
        let Some(links) = self.links.get(node as usize).copied() else {
            return;
        };
        match links.previous {
            Some(previous) => self.set_next(previous, links.next),
            None => self.set_first(to, links.next),
        }
        if let Some(next) = links.next {
            self.set_previous(next, links.previous);
        }
    }

    fn set_first(&mut self, node: u32, first: Option<u32>) {
        if let Some(links) = self.links.get_mut(node as usize) {
            links.first = first;
        }
    }

    fn set_next(&mut self, node: u32, next: Option<u32>) {
        if let Some(links) = self.links.get_mut(node as usize) {
            links.next = next;
        }
    }

    fn set_previous(&mut self, node: u32, previous: Option<u32>) {
        if let Some(links) = self.links.get_mut(node as usize) {
            links.previous = previous;
        }
    }
}
