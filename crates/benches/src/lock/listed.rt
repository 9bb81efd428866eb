//! Four threads with a list under a lock.

ghost use Rattle.std.specs.Prelude.{◌<◌};

use crate::lock::fault::Fault;
use crate::lock::load::{EVENTS, event};
use event_rules::Event;
use std::sync::{Barrier, Mutex, Wait};
use std::thread::{Threads, join};
use std::time::{Clock, Duration, Instant};

/// How many events stand on the list, and how long the threads took.
pub fn listed<R: Threads + Wait + Clock + AllocGlobal + Sync>(
    rt: &R,
) -> Result<(usize, Duration), Fault> {
    let events = Mutex::new(Vec::new(rt.alloc()));
    let start = Instant::now(rt)?;
    push_all(rt, &events);
    let taken = start.elapsed(rt)?;
    Ok((events.into_inner().len(), taken))
}

// Pushes the events of four threads, which begin together.
fn push_all<R: Threads + Wait + Sync>(rt: &R, events: &Mutex<Vec<Event>>) {
    let barrier = Barrier::new(4);
    let begin = &barrier;
    join(
        rt,
        move || push_two(rt, events, begin, 0),
        move || push_two(rt, events, begin, 2),
    );
}

// Pushes the events of this thread and the next at once.
fn push_two<R: Threads + Wait + Sync>(
    rt: &R,
    events: &Mutex<Vec<Event>>,
    begin: &Barrier,
    thread: u32,
)
    requires { thread < 4 }
{
    join(
        rt,
        move || push_each(rt, events, begin, thread),
        move || push_each(rt, events, begin, thread + 1),
    );
}

// Pushes the events of the thread when all threads are there, up to one for which there is no memory.
fn push_each<R: Wait>(rt: &R, events: &Mutex<Vec<Event>>, begin: &Barrier, thread: u32) {
    begin.wait(rt);
    for number in 0..EVENTS {
        if events.lock(rt).push(event(thread, number)).is_err() {
            break;
        }
    }
}
