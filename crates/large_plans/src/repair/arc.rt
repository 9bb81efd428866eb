//! Arcs of the residual network, along which requests are moved.

use crate::columns::Columns;
use crate::repair::time_net::TimeNet;

/// An arc, with the node whose flow or wait it changes.
#[derive(Clone, Copy)]
pub enum Arc {
    /// More go on from the node to the unit above it.
    Up(u32),
    /// Fewer do.
    Down(u32),
    /// More wait at the node for the next round.
    On(u32),
    /// Fewer do.
    Back(u32),
    /// A stay that stands alone is sent in this round.
    Send(u32, u32),
    /// It isn't sent in this round any longer.
    TakeBack(u32, u32),
}

impl Arc {
    /// The arc from one node to another.
    pub fn between(net: &TimeNet, columns: &Columns, from: u32, to: u32) -> Arc {
        if let Some(lone) = net.lone_of(from) {
            return Arc::Send(lone, net.spot(to).round);
        }
        if let Some(lone) = net.lone_of(to) {
            return Arc::TakeBack(lone, net.spot(from).round);
        }
        if net.next(from) == Some(to) {
            return Arc::On(from);
        }
        if net.next(to) == Some(from) {
            return Arc::Back(to);
        }
        let column = columns.column(net.spot(from).column);
        if column.above == Some(net.spot(to).column) {
            Arc::Up(from)
        } else {
            Arc::Down(to)
        }
    }

    /// How many requests can be moved along it.
    pub fn room(self, net: &TimeNet, columns: &Columns) -> u32 {
        match self {
            Arc::Up(number) => {
                let spot = net.spot(number);
                let column = columns.column(spot.column);
                let cap = if column.is_row() {
                    u32::MAX
                } else {
                    net.cap(spot.round, &column)
                };
                cap.saturating_sub(net.node(number).flow)
            }
            Arc::Down(number) => net.node(number).flow,
            Arc::On(number) => u32::MAX.saturating_sub(net.node(number).wait),
            Arc::Back(number) => net.node(number).wait,
            Arc::Send(..) | Arc::TakeBack(..) => 1,
        }
    }

    /// Moves requests along it. A stay that is sent in another round before it is taken back stays there.
    pub fn send(self, net: &mut TimeNet, count: u32) {
        match self {
            Arc::Up(number) => {
                net.set_flow(number, net.node(number).flow.saturating_add(count));
            }
            Arc::Down(number) => {
                net.set_flow(number, net.node(number).flow.saturating_sub(count));
            }
            Arc::On(number) => {
                net.set_wait(number, net.node(number).wait.saturating_add(count));
            }
            Arc::Back(number) => {
                net.set_wait(number, net.node(number).wait.saturating_sub(count));
            }
            Arc::Send(lone, round) => net.lone.send(lone, round),
            Arc::TakeBack(lone, round) => {
                if net.lone.sent_in(lone, round) {
                    net.lone.take_back(lone);
                }
            }
        }
    }
}
