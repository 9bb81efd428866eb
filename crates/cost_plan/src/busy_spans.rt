//! For how many rounds on end requests wait, live, for adapters that take no more. It says which guess at a best plan of many stays
//! comes first.

ghost use Rattle.std.specs.Prelude.{◌<◌};
ghost use Rattle.cost_plan.specs.Words.{instance_of_rows};

use crate::lists::place;
use crate::units::{above, caps_of};
use round_net::Net;
use std::alloc::{AllocError, Global};

// Spans up to that many rounds are short, and where many devices share an adapter or a link, up to that many for each of these.
const SHORT: u64 = 1024;

const SHORT_PER_DEVICE: u64 = 256;

/// Whether rounds in which some wait for a full adapter, or for one on a full link, lie in long spans of such rounds. A search for a
/// path by which a plan is mended goes through a span, so that a plan by levels of time takes less time then. That takes more where
/// more devices share an adapter or a link, and paths are shorter there.
pub(crate) fn are_spans_long(alloc: Global, net: &Net) -> Result<bool, AllocError> {
    let traffic = Traffic::live(alloc, net)?;
    let mut spans = Spans {
        rounds: 0,
        squares: 0,
    };
    for adapter in 0..net.adapters() {
        let resource = net.adapter_resource(adapter);
        traffic.add_spans(net, resource, above(net, resource), &mut spans);
    }
    Ok(spans.squares > spans.rounds.saturating_mul(longest(net)))
}

// How long spans are at most that aren't long.
fn longest(net: &Net) -> u64 {
    let mut tops = 0u32;
    for resource in 0..net.rows() {
        if above(net, resource).is_none() {
            tops = tops.saturating_add(1);
        }
    }
    let devices = net.devices().checked_div(tops).unwrap_or(0);
    SHORT.max(u64::from(devices).saturating_mul(SHORT_PER_DEVICE))
}

// Spans of rounds.
#[derive(Clone, Copy)]
struct Spans {
    // How many rounds are in all of them, and what their squares come to.
    rounds: u64,
    squares: u64,
}

impl Spans {
    fn add(&mut self, rounds: u64) {
        self.rounds = self.rounds.saturating_add(rounds);
        self.squares = self.squares.saturating_add(rounds.saturating_mul(rounds));
    }
}

// What is sent and what waits, resource by resource, and of each round by round.
#[derive(Drop)]
struct Traffic {
    // How many more each resource would take.
    room: Vec<u32>,
    // By how much the number of those that wait for an adapter grows.
    growth: Vec<i32>,
}

impl Traffic {
    fn live(alloc: Global, net: &Net) -> Result<Traffic, AllocError> {
        let mut traffic = Traffic {
            room: Vec::with_capacity(alloc, net.cells())?,
            growth: vec![in alloc; 0; net.cells()]?,
        };
        traffic.add_room(alloc, net)?;
        for stay in 0..net.stays() {
            traffic.add_stay(net, stay);
        }
        Ok(traffic)
    }

    fn add_room(&mut self, alloc: Global, net: &Net) -> Result<(), AllocError> {
        for resource in 0..net.rows() {
            for cap in &caps_of(alloc, net, resource)? {
                self.room.push(*cap)?;
            }
        }
        Ok(())
    }

    fn add_stay(&mut self, net: &Net, stay: u32)
        requires { stay < (instance_of_rows net.now).stays }
    {
        let adapter = net.adapter_resource(net.adapter(stay));
        let arrival = net.arrival(stay).saturating_sub(1);
        let sent = net.live(stay).saturating_sub(1);
        grow(&mut self.growth, place(net, adapter, arrival), 1);
        grow(&mut self.growth, place(net, adapter, sent), -1);
        take(&mut self.room, place(net, adapter, sent));
        if let Some(link) = net.link(stay) {
            take(&mut self.room, place(net, net.link_resource(link), sent));
        }
    }

    // Adds the spans of an adapter, which may have a link above it.
    fn add_spans(&self, net: &Net, adapter: u32, link: Option<u32>, spans: &mut Spans) {
        let (mut waiting, mut length) = (0i32, 0u64);
        for round in 0..net.rounds() {
            let growth = self.growth.get(place(net, adapter, round)).copied();
            waiting = waiting.saturating_add(growth.unwrap_or(0));
            if waiting > 0 && self.is_full(net, adapter, link, round) {
                length = length.saturating_add(1);
            } else {
                spans.add(length);
                length = 0;
            }
        }
        spans.add(length);
    }

    fn is_full(&self, net: &Net, adapter: u32, link: Option<u32>, round: u32) -> bool {
        let own = self.room.get(place(net, adapter, round)).copied();
        match link {
            Some(link) => {
                own == Some(0) || self.room.get(place(net, link, round)).copied() == Some(0)
            }
            None => own == Some(0),
        }
    }
}

fn grow(growth: &mut [i32], place: usize, more: i32) {
    if let Some(growth) = growth.get_mut(place) {
        *growth = growth.saturating_add(more);
    }
}

fn take(room: &mut [u32], place: usize) {
    if let Some(room) = room.get_mut(place) {
        *room = room.saturating_sub(1);
    }
}
