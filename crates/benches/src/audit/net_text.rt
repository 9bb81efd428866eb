//! A net as numbers, for other solvers.

ghost use Rattle.std.specs.Prelude.{◌<◌};
ghost use Rattle.round_net.specs.Instance.{rows};
ghost use Rattle.round_net.specs.Rows.{instance_of_rows};

use round_net::Net;
use std::io;
use std::process::ExitCode;

/// Prints how many stays, devices, adapters, links and rounds there are; the adapter of each device; the link of each adapter, or
/// -1; of each stay its device, first round, last round and weight; and how many stays each row takes in each round: each device,
/// then each adapter, then each link.
pub fn print_net<R: Print>(rt: &R, net: &Net) -> io::Result<ExitCode> {
    println!(rt;
        "{} {} {} {} {}",
        net.stays(),
        net.devices(),
        net.adapters(),
        net.links(),
        net.rounds()
    )?;
    print_tree(rt, net)?;
    print_stays(rt, net)?;
    for row in 0..net.rows() {
        print_row(rt, net, row)?;
    }
    Ok(ExitCode::SUCCESS)
}

// The adapter of each device, and the link of each adapter.
fn print_tree<R: Print>(rt: &R, net: &Net) -> io::Result<()> {
    for device in 0..net.devices() {
        println!(rt; "{}", net.adapter_of(device))?;
    }
    for adapter in 0..net.adapters() {
        match net.link_of(adapter) {
            Some(link) => println!(rt; "{link}")?,
            None => println!(rt; "-1")?,
        }
    }
    Ok(())
}

fn print_stays<R: Print>(rt: &R, net: &Net) -> io::Result<()> {
    for stay in 0..net.stays() {
        let (device, weight) = (net.device(stay), net.weight(stay));
        println!(rt;
            "{device} {} {} {weight}",
            net.arrival(stay),
            net.last(stay)
        )?;
    }
    Ok(())
}

fn print_row<R: Print>(rt: &R, net: &Net, row: u32) -> io::Result<()>
    requires { row < rows (instance_of_rows net.now) }
{
    for round in 1..net.rounds() + 1 {
        println!(rt; "{}", net.cap(row, round))?;
    }
    Ok(())
}
