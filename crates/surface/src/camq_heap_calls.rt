//! The calls of `camq_heap`: a queue by priority and generation.

use crate::tell::{begin, end, tell};
use anyhow::Result;
use cam_types::Priority;
use camq_heap::{Camq, Entry, QueueFull};
use std::alloc::{AllocError, Global};

/// Makes each call once, and prints a line of what they answer.
pub fn call_camq_heap(rt: &HostRuntime) -> Result<()> {
    let alloc: Global = rt.alloc();
    begin(rt, "camq_heap")?;
    let made: Result<Camq<u8>, AllocError> = Camq::with_capacity(alloc, 2usize);
    call_queue(rt, &mut made?)?;
    end(rt)
}

fn call_queue(rt: &HostRuntime, queue: &mut Camq<u8>) -> Result<()> {
    call_insert(rt, queue, 0, b'a')?;
    call_insert(rt, queue, 1, b'b')?;
    call_insert(rt, queue, 2, b'c')?;
    call_first(rt, queue)?;
    call_places(rt, queue)?;
    let removed: Option<Entry<u8>> = queue.remove_first();
    tell(
        rt,
        "removed, left",
        &[generation_of(removed.as_ref()), queue.len() as u64],
    )
}

fn call_insert(rt: &HostRuntime, queue: &mut Camq<u8>, generation: u64, item: u8) -> Result<()> {
    if queue.has_generation(generation) {
        return Ok(());
    }
    let priority = Priority::new(1152)?;
    let inserted: Result<(), QueueFull<u8>> = queue.insert(priority, generation, item);
    let full: u8 = match inserted {
        Ok(()) => 0,
        Err(QueueFull(item)) => item,
    };
    tell(rt, "full", &[full as u64])
}

fn call_first(rt: &HostRuntime, queue: &Camq<u8>) -> Result<()> {
    let first: Option<&Entry<u8>> = queue.first();
    let (length, moved): (usize, u32) = (queue.len(), queue.moved());
    tell(
        rt,
        "first, length, moved",
        &[generation_of(first), length as u64, moved as u64],
    )
}

fn call_places(rt: &HostRuntime, queue: &mut Camq<u8>) -> Result<()> {
    if 1 < queue.len() {
        queue.change_priority(1usize, Priority::new(896)?);
    }
    if 1 < queue.len() {
        let entry: Entry<u8> = queue.remove_at(1usize);
        tell(rt, "out", &[entry.generation])?;
    }
    Ok(())
}

// The generation of an entry, or 9 where there is none.
fn generation_of(entry: Option<&Entry<u8>>) -> u64 {
    match entry {
        Some(entry) => entry.generation,
        None => 9,
    }
}
