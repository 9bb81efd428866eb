//! The calls of `sim_queue`: an adapter's queue of devices.

use crate::tell::{begin, end, known, tell};
use anyhow::Result;
use cam_types::Priority;
use sim_queue::{FreezeOverflow, ReleaseTooMany, SimQueue};
use std::alloc::{AllocError, Global};

/// Makes each call once, and prints a line of what they answer.
pub fn call_sim_queue(rt: &HostRuntime) -> Result<()> {
    let alloc: Global = rt.alloc();
    begin(rt, "sim_queue")?;
    let devices: &[u32] = &[3];
    let opened: Result<SimQueue, AllocError> = SimQueue::open(alloc, 1u32, devices);
    call_queue(rt, &mut opened?)?;
    end(rt)
}

fn call_queue(rt: &HostRuntime, queue: &mut SimQueue) -> Result<()> {
    let priority: Option<Priority> = Some(Priority::new(1152)?);
    if queue.has_device(3) {
        queue.set_ready(3u32, priority);
    }
    call_freezes(rt, queue)?;
    call_send(rt, queue)
}

fn call_freezes(rt: &HostRuntime, queue: &mut SimQueue) -> Result<()> {
    let frozen: Result<(), FreezeOverflow> = queue.freeze(1u32);
    let is_frozen: bool = queue.frozen();
    let best: Option<u32> = queue.best_ready();
    let released: Result<(), ReleaseTooMany> = queue.release();
    let answers = [
        frozen.is_ok() as u64,
        is_frozen as u64,
        known(best),
        released.is_ok() as u64,
    ];
    tell(rt, "freeze, frozen, best, release", &answers)
}

fn call_send(rt: &HostRuntime, queue: &mut SimQueue) -> Result<()> {
    let best: Option<u32> = queue.best_ready();
    if let Some(device) = best {
        queue.send(device, 0u32);
    }
    let used: bool = queue.used();
    queue.next_round();
    tell(
        rt,
        "sent to, used, then used",
        &[known(best), used as u64, queue.used() as u64],
    )
}
