//! The network: cells, the root after them, and stays, which stand in cells.

use crate::senders::Senders;
use crate::stop::Stop;
use std::alloc::Global;

/// A node. What comes into a cell goes on to the node above it; a stay goes on to the cell in which it stands.
#[derive(Clone, Copy)]
pub struct Node {
    /// The node above.
    pub above: u32,
    /// How many stays may go on to the node above.
    pub cap: u32,
    /// How many do.
    pub count: u32,
    /// What the cheapest path from here to the root costs one stay more, at least.
    pub potential: u32,
}

impl Node {
    /// A node that leads to another, with room for that many stays.
    pub fn new(above: u32, cap: u32, potential: u32) -> Node {
        Node {
            above,
            cap,
            count: 0,
            potential,
        }
    }

    /// Whether one stay more may go on to the node above.
    pub fn has_room(&self) -> bool {
        self.count < self.cap
    }
}

/// The nodes, and which of them send stays to which: first the cells, then the root, then a node for each stay.
#[derive(Drop)]
pub struct Network {
    nodes: Vec<Node>,
    senders: Senders,
    root: u32,
}

impl Network {
    /// No node yet. The root will be the node of this number.
    pub fn new(alloc: Global, root: u32) -> Network {
        Network {
            nodes: Vec::new(alloc),
            senders: Senders::new(alloc),
            root,
        }
    }

    /// Adds a node.
    pub fn push(&mut self, node: Node) -> Result<(), Stop> {
        self.nodes.push(node)?;
        self.senders.push()
    }

    /// How many nodes there are.
    pub fn len(&self) -> u32 {
        u32::try_from(self.nodes.len()).unwrap_or(u32::MAX)
    }

    /// The number of the root.
    pub fn root(&self) -> u32 {
        self.root
    }

    /// The node of a stay.
    pub fn stay_node(&self, stay: u32) -> u32 {
        self.root.saturating_add(1).saturating_add(stay)
    }

    /// The stay of a node, if it is one of a stay.
    pub fn stay_of(&self, number: u32) -> Option<u32> {
        number.checked_sub(self.root)?.checked_sub(1)
    }

    /// A node.
    pub fn node(&self, number: u32) -> Result<Node, Stop> {
        self.nodes
            .get(number as usize)
            .copied()
            .ok_or(Stop::GivenUp)
    }

    /// The first node that sends stays to this one.
    pub fn first_sender(&self, number: u32) -> Option<u32> {
        self.senders.first(number)
    }

    /// The next one that sends stays to the same node.
    pub fn next_sender(&self, number: u32) -> Option<u32> {
        self.senders.next(number)
    }

    fn set(&mut self, number: u32, node: Node) {
        if let Some(place) = self.nodes.get_mut(number as usize) {
            *place = node;
        }
    }

    /// Raises the potential of a node.
    pub fn raise(&mut self, number: u32, by: u32) -> Result<(), Stop> {
        let node = self.node(number)?;
        self.set(
            number,
            Node {
                potential: node.potential.checked_add(by).ok_or(Stop::GivenUp)?,
                ..node
            },
        );
        Ok(())
    }

    /// Sends one stay more from a node to the node above.
    pub fn send(&mut self, number: u32) -> Result<(), Stop> {
        let node = self.node(number)?;
        if node.count == 0 && node.above != self.root {
            self.senders.add(number, node.above);
        }
        self.set(
            number,
            Node {
                count: node.count.checked_add(1).ok_or(Stop::GivenUp)?,
                ..node
            },
        );
        Ok(())
    }

    /// Sends one stay less from a node to the node above.
    pub fn take_back(&mut self, number: u32) -> Result<(), Stop> {
        let node = self.node(number)?;
        if node.count == 1 && node.above != self.root {
            self.senders.remove(number, node.above);
        }
        self.set(
            number,
            Node {
                count: node.count.checked_sub(1).ok_or(Stop::GivenUp)?,
                ..node
            },
        );
        Ok(())
    }

    /// Puts the stay of a node into a cell, and answers the cell in which it stood, if it stood in one.
    pub fn put(&mut self, number: u32, cell: u32) -> Result<Option<u32>, Stop> {
        let node = self.node(number)?;
        let was = if node.count > 0 {
            self.take_back(number)?;
            Some(node.above)
        } else {
            None
        };
        self.set(number, Node::new(cell, 1, 0));
        self.send(number)?;
        Ok(was)
    }

    /// Sends one stay more from a cell up to the root.
    pub fn send_up(&mut self, start: u32) -> Result<(), Stop> {
        let mut number = start;
        for _ in 0..self.len() {
            if number == self.root {
                break;
            }
            self.send(number)?;
            number = self.node(number)?.above;
        }
        Ok(())
    }

    /// Whether one stay more may go on from a cell up to the root.
    pub fn has_room(&self, start: u32) -> Result<bool, Stop> {
        let mut number = start;
        for _ in 0..self.len() {
            if number == self.root {
                break;
            }
            let node = self.node(number)?;
            if !node.has_room() {
                return Ok(false);
            }
            number = node.above;
        }
        Ok(true)
    }
}
