//! The nets of traces, and what schedules of them cost.

use audit_report::read_net;
use cam_types::{Watched, read_number};
use round_net::{Net, Schedule, cost};
use std::io;
use std::io::Read;

/// Prints the net of a trace, or why it has none: what there is, then each stay, and then how many commands each device, adapter
/// and link takes in each round.
pub fn show_net(rt: &HostRuntime, trace: impl Read + Drop) -> io::Result<()> {
    let net = match read_net(rt.alloc(), &mut Watched::new(trace)) {
        Ok((_, net)) => net,
        Err(fault) => return rt.println(fault),
    };
    println!(rt;
        "stays {} devices {} adapters {} links {} rows {} rounds {} cells {}",
        net.stays(),
        net.devices(),
        net.adapters(),
        net.links(),
        net.rows(),
        net.rounds(),
        net.cells()
    )?;
    show_stays(rt, &net)?;
    show_devices(rt, &net)?;
    show_adapters(rt, &net)?;
    show_links(rt, &net)
}

fn show_stays(rt: &HostRuntime, net: &Net) -> io::Result<()> {
    for stay in 0..net.stays() {
        let name = net.stay(stay);
        print!(rt;
            "stay {} {} device {} ",
            name.ccb,
            name.attempt,
            net.device(stay)
        )?;
        print!(rt; "adapter {} link {:?} ", net.adapter(stay), net.link(stay))?;
        print!(rt; "window {}-{} ", net.arrival(stay), net.last(stay))?;
        println!(rt; "weight {} live {}", net.weight(stay), net.live(stay))?;
    }
    Ok(())
}

fn show_devices(rt: &HostRuntime, net: &Net) -> io::Result<()> {
    for device in 0..net.devices() {
        print!(rt; "device {device} takes")?;
        for round in 1..net.rounds() + 1 {
            print!(rt; " {}", net.dev_cap(device, round))?;
        }
        rt.println("")?;
    }
    Ok(())
}

fn show_adapters(rt: &HostRuntime, net: &Net) -> io::Result<()> {
    for adapter in 0..net.adapters() {
        print!(rt; "adapter {adapter} link {:?} takes", net.link_of(adapter))?;
        for round in 1..net.rounds() + 1 {
            print!(rt; " {}", net.sim_cap(adapter, round))?;
        }
        rt.println("")?;
    }
    Ok(())
}

fn show_links(rt: &HostRuntime, net: &Net) -> io::Result<()> {
    for link in 0..net.links() {
        print!(rt; "link {link} row {} takes", net.link_resource(link))?;
        for round in 1..net.rounds() + 1 {
            print!(rt; " {}", net.link_cap(link, round))?;
        }
        rt.println("")?;
    }
    Ok(())
}

/// Prints what a schedule of a trace costs, given as the rounds of its stays.
pub fn show_cost(rt: &HostRuntime, trace: impl Read + Drop, rounds: &str) -> io::Result<()> {
    let Ok((_, net)) = read_net(rt.alloc(), &mut Watched::new(trace)) else {
        return rt.println("no net");
    };
    let mut numbers = Vec::new(rt.alloc());
    for word in rounds.split(' ') {
        numbers.push(read_number(word.as_bytes(), 65535).unwrap_or(0) as u32)?;
    }
    let schedule = Schedule::new(rt.alloc(), &numbers)?;
    if schedule.is_empty() || schedule.len() != net.stays() as usize {
        return rt.println("another number of stays");
    }
    match cost(&net, &schedule) {
        Some(cost) => println!(rt; "{schedule:?} costs {cost}"),
        None => println!(rt; "{schedule:?} has a stay before its arrival"),
    }
}
