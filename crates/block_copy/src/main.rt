//! Copies a text block by block through a transport that threads share. Two drivers submit a CCB for each block, two lanes of
//! one adapter send and serve them, and each tenth block is busy once. What all of them did is gathered into one history.
//!
//! What is printed is the same however the threads take turns. With `--trace` as the first word the trace of what they did is
//! printed instead.
#![tactic(auto)]

ghost use Rattle.std.specs.Prelude.{◌≡◌};

use crate::blocks::{BLOCKS, Blocks, SIZE};
use crate::crew::Crew;
use crate::fault::Fault;
use cam_event::History;
use cam_types::{Config, ConfigError, Device, Limits, Watched};
use std::alloc::Global;
use std::marker::Brand;
use std::process::ExitCode;
use std::sync::Wait;
use std::sync::ledger::{Blank, Ledger};
use std::thread::Threads;
use std::{env, io};
use trace_file::write_trace;
use xpt_lock::SharedXpt;
use xpt_state::Xpt;

mod blocks;
mod crew;
mod fault;

fn main(rt: HostRuntime) -> io::Result<ExitCode> {
    match run(&rt, &rt) {
        Ok(()) => Ok(ExitCode::SUCCESS),
        Err(fault) => {
            eprintln!(rt; "block_copy: {fault}")?;
            Ok(ExitCode::FAILURE)
        }
    }
}

fn run<T: Threads + Wait + Sync>(rt: &HostRuntime, threads: &T) -> Result<(), Fault> {
    let alloc = rt.alloc();
    let blocks = Blocks::new(alloc)?;
    let history = copy::<Brand, T>(threads, alloc, &blocks, Blank::new(65))?;
    if let Some(number) = blocks.first_difference(threads) {
        return Err(Fault::Differs(number));
    }
    let words: Vec<String> = env::args(rt)?.collect(alloc)?;
    if words.get(1).is_some_and(|word| word.as_str() == "--trace") {
        write_trace(alloc, &history, &mut Watched::new(io::writer(rt)))?;
        return Ok(());
    }
    println!(rt; "{BLOCKS} blocks copied, {} bytes the same", BLOCKS * SIZE)?;
    println!(rt;
        "commands {}\nstays {}",
        history.commands(),
        history.stay_count()
    )?;
    Ok(())
}

// Copies all blocks, and gives the one history of what the threads did. `L` names the ledger by which the transport counts its
// events: one part for each of 64 seats, and one more.
fn copy<L: Ledger + Send + Sync, R: Threads + Wait + Sync>(
    rt: &R,
    alloc: Global,
    blocks: &Blocks,
    blank: Blank,
) -> Result<History, Fault>
    requires name { blank.name ≡ L.name }
    requires parts { (blank.parts ≡ L.parts) × (blank.parts ≡ 65) }
{
    let xpt = Xpt::open(alloc, one_disk(alloc)?, Limits::most())?;
    let shared: SharedXpt<L> = SharedXpt::new(xpt, blank);
    let mut crew = Crew::new(rt, alloc, &shared)?;
    for _ in rt.forever() {
        crew.work(rt, &shared, blocks)?;
        if crew.is_through(rt, &shared) {
            break;
        }
    }
    let seats = crew.into_seats(alloc)?;
    Ok(shared.gather(alloc, seats)?)
}

// One disk, on one adapter with two lanes.
fn one_disk(alloc: Global) -> Result<Config, ConfigError> {
    let disk = Device {
        bus: 0,
        target: 1,
        lun: 0,
        openings: 16,
    };
    Config::new(alloc, &[16], &[disk], &[0, 0])
}
