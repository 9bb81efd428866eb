//! Four threads push 60,000 events through seats of a shared transport, and then the same events on a list under a lock.

use alone::alone;
use fault::Fault;
use listed::listed;
use load::{EVENTS, THREADS};
use seated::seated;
use std::sync::Wait;
use std::thread::Threads;
use std::time::{Clock, Duration};

mod alone;
mod call;
pub mod fault;
mod listed;
mod load;
mod seated;

/// Says on standard error how many nanoseconds an event took through the seats, on the list, and of one thread alone.
pub fn time<R: Threads + Wait + Clock + AllocGlobal + Print + Eprint + Sync>(
    rt: &R,
) -> Result<(), Fault> {
    let (gathered, seats) = seated(rt)?;
    let (pushed, list) = listed(rt)?;
    let (taken, one) = alone(rt)?;
    println!(rt; "{gathered} events of four seats, {pushed} on a list, {taken} of one thread")?;
    eprintln!(rt;
        "{} ns an event of a seat, {} on the list, {} of one thread",
        per_event(seats),
        per_event(list),
        per_event(one)
    )?;
    Ok(())
}

// Nanoseconds an event, where all events took this time.
fn per_event(taken: Duration) -> u128 {
    taken.as_nanos() / u128::from(THREADS * EVENTS)
}
