//! The calls of `dev_queue`: a device's queue.

use crate::tell::{begin, end, tell};
use anyhow::Result;
use cam_types::Priority;
use dev_queue::{DevQueue, FreezeOverflow, QueueFull, ReleaseTooMany, Waiting};
use std::alloc::{AllocError, Global};

/// Makes each call once, and prints a line of what they answer.
pub fn call_dev_queue(rt: &HostRuntime) -> Result<()> {
    let alloc: Global = rt.alloc();
    begin(rt, "dev_queue")?;
    let opened: Result<DevQueue, AllocError> = DevQueue::open(alloc, 1u32, 2usize);
    call_queue(rt, &mut opened?)?;
    end(rt)
}

fn call_queue(rt: &HostRuntime, queue: &mut DevQueue) -> Result<()> {
    call_entries(rt, queue)?;
    call_freezes(rt, queue)?;
    call_send(rt, queue)?;
    call_done(rt, queue)?;
    call_round(rt, queue)
}

fn call_entries(rt: &HostRuntime, queue: &mut DevQueue) -> Result<()> {
    let priority = Priority::new(1152)?;
    if queue.entered() < u32::MAX {
        let inserted: Result<(), QueueFull> = queue.insert(0u32, priority);
        inserted?;
    }
    if queue.entered() < u32::MAX {
        let requeued: Result<(), QueueFull> = queue.requeue(1u32, priority);
        requeued?;
    }
    let first: Option<Waiting> = queue.first();
    let entered: u32 = queue.entered();
    tell(rt, "first, entered", &[ccb_of(first), entered as u64])
}

fn call_freezes(rt: &HostRuntime, queue: &mut DevQueue) -> Result<()> {
    let frozen: Result<(), FreezeOverflow> = queue.freeze(2u32);
    let is_frozen: bool = queue.frozen();
    let released: Result<(), ReleaseTooMany> = queue.release(2u32);
    let is_ready: bool = queue.ready();
    let answers = [
        frozen.is_ok() as u64,
        is_frozen as u64,
        released.is_ok() as u64,
        is_ready as u64,
    ];
    tell(rt, "freeze, frozen, release, ready", &answers)
}

fn call_send(rt: &HostRuntime, queue: &mut DevQueue) -> Result<()> {
    if queue.ready() {
        let sent: Waiting = queue.send(false);
        tell(rt, "sent", &[sent.ccb as u64])?;
    }
    Ok(())
}

fn call_done(rt: &HostRuntime, queue: &mut DevQueue) -> Result<()> {
    if queue.in_flight() > 0 {
        queue.done(true);
    }
    let errors: u32 = queue.errors();
    if queue.errors() > 0 {
        queue.resolve();
    }
    tell(
        rt,
        "errors, frozen",
        &[errors as u64, queue.frozen() as u64],
    )
}

fn call_round(rt: &HostRuntime, queue: &mut DevQueue) -> Result<()> {
    queue.adjust(3u32);
    if queue.in_flight() == 0 {
        queue.next_round();
    }
    tell(
        rt,
        "then first, openings",
        &[ccb_of(queue.first()), queue.openings() as u64],
    )
}

// The CCB that waits, or 9 where none does.
fn ccb_of(waiting: Option<Waiting>) -> u64 {
    match waiting {
        Some(waiting) => waiting.ccb as u64,
        None => 9,
    }
}
