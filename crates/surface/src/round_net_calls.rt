//! The calls of `round_net`: the net of a history, schedules and prices.

use crate::tell::{begin, end, known, tell};
use crate::texts::NARROW_LINK;
use anyhow::Result;
use cam_event::{History, Stay};
use cam_types::Watched;
use round_net::{Net, NetFault, PriceRange, Prices, Schedule, cost};
use std::alloc::{AllocError, Global};
use trace_file::read_trace;

/// Makes each call once, and prints a line of what they answer.
pub fn call_round_net(rt: &HostRuntime) -> Result<()> {
    let alloc: Global = rt.alloc();
    begin(rt, "round_net")?;
    let history: History = read_trace(alloc, &mut Watched::new(NARROW_LINK.as_bytes()))?;
    let made: Result<Net, NetFault> = Net::of(alloc, &history);
    match made {
        Ok(net) => call_net(rt, alloc, &net)?,
        Err(NetFault::Unsent(stay)) => tell(rt, "unsent", &[stay.ccb as u64, stay.attempt as u64])?,
        Err(NetFault::OutOfMemory) => tell(rt, "out of memory", &[])?,
    }
    end(rt)
}

fn call_net(rt: &HostRuntime, alloc: Global, net: &Net) -> Result<()> {
    let (rounds, stays, cells): (u32, u32, usize) = (net.rounds(), net.stays(), net.cells());
    tell(
        rt,
        "rounds, stays, cells",
        &[rounds as u64, stays as u64, cells as u64],
    )?;
    call_stay(rt, net)?;
    call_window(rt, net)?;
    call_caps(rt, net)?;
    call_schedule(rt, alloc, net)?;
    call_prices(rt, alloc, net)
}

// Of the second of at least two stays.
fn call_stay(rt: &HostRuntime, net: &Net) -> Result<()> {
    if net.stays() < 2 {
        return Ok(());
    }
    let stay: Stay = net.stay(1u32);
    let (device, adapter): (u32, u32) = (net.device(1u32), net.adapter(1u32));
    let link: Option<u32> = net.link(1u32);
    tell(rt, "stay", &[stay.ccb as u64, stay.attempt as u64])?;
    tell(rt, "on", &[device as u64, adapter as u64, known(link)])
}

// Of the second of at least two stays.
fn call_window(rt: &HostRuntime, net: &Net) -> Result<()> {
    if net.stays() < 2 {
        return Ok(());
    }
    let (arrival, last): (u32, u32) = (net.arrival(1u32), net.last(1u32));
    let (weight, live): (u32, u32) = (net.weight(1u32), net.live(1u32));
    tell(
        rt,
        "window, weight, live",
        &[arrival as u64, last as u64, weight as u64, live as u64],
    )
}

fn call_caps(rt: &HostRuntime, net: &Net) -> Result<()> {
    if net.rounds() < 1 || net.devices() < 1 || net.adapters() < 1 || net.links() < 1 {
        return Ok(());
    }
    let dev_cap: u32 = net.dev_cap(0u32, 1u32);
    let sim_cap: u32 = net.sim_cap(0u32, 1u32);
    let link_cap: u32 = net.link_cap(0u32, 1u32);
    tell(
        rt,
        "caps",
        &[dev_cap as u64, sim_cap as u64, link_cap as u64],
    )
}

fn call_schedule(rt: &HostRuntime, alloc: Global, net: &Net) -> Result<()> {
    let rounds: &[u32] = &[1, 2];
    let made: Result<Schedule, AllocError> = Schedule::new(alloc, rounds);
    let schedule: Schedule = made?;
    if schedule.len() == 2 {
        let round: u32 = schedule.round(1u32);
        tell(rt, "round", &[round as u64])?;
    }
    call_cost(rt, net, &schedule)
}

fn call_cost(rt: &HostRuntime, net: &Net, schedule: &Schedule) -> Result<()> {
    if schedule.len() != net.stays() as usize {
        return Ok(());
    }
    let cost: Option<u64> = cost(net, schedule);
    tell(rt, "cost", &[cost.unwrap_or(999)])
}

fn call_prices(rt: &HostRuntime, alloc: Global, net: &Net) -> Result<()> {
    let made: Result<Prices, AllocError> = Prices::zero(alloc, net);
    let mut prices: Prices = made?;
    if net.rounds() < 1 || net.devices() < 1 || net.adapters() < 1 || net.links() < 1 {
        return Ok(());
    }
    let set: Result<(), PriceRange> = prices.set_dev(0u32, 1u32, 3u64);
    let on_adapter: Result<(), PriceRange> = prices.set_sim(0u32, 1u32, 4u64);
    let on_link: Result<(), PriceRange> = prices.set_link(0u32, 1u32, 5u64);
    let dev: u64 = prices.dev(0u32, 1u32);
    let sim: u64 = prices.sim(0u32, 1u32);
    let link: u64 = prices.link(0u32, 1u32);
    let are_set: bool = set.is_ok() && on_adapter.is_ok() && on_link.is_ok();
    tell(rt, "prices", &[are_set as u64, dev, sim, link])
}
