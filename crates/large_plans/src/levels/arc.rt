//! Arcs of the residual network of a level, along which requests are moved.

use crate::columns::Columns;
use crate::levels::level::Level;

/// An arc, with the node whose flow or wait it changes.
#[derive(Clone, Copy)]
pub enum Arc {
    /// More go on from the node to the unit above it.
    Up(u32),
    /// Fewer do.
    Down(u32),
    /// More wait at the node for the next block.
    On(u32),
    /// Fewer do.
    Back(u32),
}

impl Arc {
    /// The arc from one node to another.
    pub fn between(level: &Level, columns: &Columns, from: u32, to: u32) -> Arc {
        if level.next(from) == Some(to) {
            return Arc::On(from);
        }
        if level.next(to) == Some(from) {
            return Arc::Back(to);
        }
        let column = columns.column(level.column_of(from));
        if column.above == Some(level.column_of(to)) {
            Arc::Up(from)
        } else {
            Arc::Down(to)
        }
    }

    /// How many requests can be moved along it.
    pub fn room(self, level: &Level) -> u32 {
        match self {
            Arc::Up(number) => {
                let node = level.node(number);
                node.cap.saturating_sub(node.flow)
            }
            Arc::Down(number) => level.node(number).flow,
            Arc::On(number) => u32::MAX.saturating_sub(level.node(number).wait),
            Arc::Back(number) => level.node(number).wait,
        }
    }

    /// Moves requests along it.
    pub fn send(self, level: &mut Level, count: u32) {
        match self {
            Arc::Up(number) => {
                level.set_flow(number, level.node(number).flow.saturating_add(count));
            }
            Arc::Down(number) => {
                level.set_flow(number, level.node(number).flow.saturating_sub(count));
            }
            Arc::On(number) => {
                level.set_wait(number, level.node(number).wait.saturating_add(count));
            }
            Arc::Back(number) => {
                level.set_wait(number, level.node(number).wait.saturating_sub(count));
            }
        }
    }
}
