//! Counts what inserts into a queue of 1,000 entries and removals of its first entry move, and how long they take.

use load::{Load, Tally};
use std::io;
use std::time::CpuClock;

mod load;

const HELD: u32 = 1_000;

const BATCH: u32 = 100;

const BATCHES: u32 = 1_000;

/// Prints how many entries the calls moved, in all and at most, and says on standard error how long they took.
pub fn time<R: AllocGlobal + CpuClock + Print + Eprint>(rt: &R) -> io::Result<()> {
    let mut load = Load::new(rt.alloc(), HELD + BATCH)?;
    let mut inserts = Tally::default();
    let mut removals = Tally::default();
    load.insert(HELD, &mut Tally::default());
    for _ in 0..BATCHES {
        time_batch(rt, &mut load, &mut inserts, &mut removals)?;
    }
    tell(rt, &inserts, &removals)
}

fn time_batch<R: CpuClock>(
    rt: &R,
    load: &mut Load,
    inserts: &mut Tally,
    removals: &mut Tally,
) -> io::Result<()> {
    let start = rt.process_cpu_time()?;
    load.insert(BATCH, inserts);
    let between = rt.process_cpu_time()?;
    load.remove(BATCH, removals);
    let end = rt.process_cpu_time()?;
    inserts.time = inserts.time.saturating_add(between.saturating_sub(start));
    removals.time = removals.time.saturating_add(end.saturating_sub(between));
    Ok(())
}

fn tell<R: Print + Eprint>(rt: &R, inserts: &Tally, removals: &Tally) -> io::Result<()> {
    println!(rt;
        "inserts {} moved {} most {}",
        inserts.calls, inserts.moved, inserts.most
    )?;
    println!(rt;
        "removals {} moved {} most {}",
        removals.calls, removals.moved, removals.most
    )?;
    eprintln!(rt; "inserts {:?} removals {:?}", inserts.time, removals.time)
}
