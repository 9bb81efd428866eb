//! One thread with a transport of its own.

use crate::lock::fault::Fault;
use crate::lock::load::{EVENTS, THREADS, event};
use crate::lock::seated::transport;
use std::time::{Clock, Duration, Instant};

/// How many events the transport took, and how long that was.
pub fn alone<R: Clock + AllocGlobal>(rt: &R) -> Result<(usize, Duration), Fault> {
    let mut xpt = transport(rt.alloc())?;
    let start = Instant::now(rt)?;
    for number in 0..EVENTS {
        for thread in 0..THREADS {
            let _ = xpt.take(event(thread, number));
        }
    }
    let taken = start.elapsed(rt)?;
    Ok((xpt.events().len(), taken))
}
