//! The calls of `cam_ccb`: a table of CCBs.

use crate::tell::{begin, end, known, tell};
use anyhow::Result;
use cam_ccb::{CcbFull, CcbTable, Handle, StaleCcb};
use std::alloc::{AllocError, Global};

/// Makes each call once, and prints a line of what they answer.
pub fn call_cam_ccb(rt: &HostRuntime) -> Result<()> {
    let alloc: Global = rt.alloc();
    let made: Result<CcbTable<u32>, AllocError> = CcbTable::with_capacity(alloc, 1usize);
    let mut table: CcbTable<u32> = made?;
    let given: Result<Handle, CcbFull<u32>> = table.take(7u32);
    let handle: Handle = given?;
    begin(rt, "cam_ccb")?;
    call_taken(rt, &table, handle)?;
    call_held(rt, &mut table, handle)?;
    end(rt)
}

fn call_taken(rt: &HostRuntime, table: &CcbTable<u32>, handle: Handle) -> Result<()> {
    let (slot, number): (usize, u32) = (handle.slot, handle.number);
    let taken: u32 = table.taken();
    tell(
        rt,
        "slot, number, taken",
        &[slot as u64, number as u64, taken as u64],
    )
}

fn call_held(rt: &HostRuntime, table: &mut CcbTable<u32>, handle: Handle) -> Result<()> {
    let held: Option<&u32> = table.get(handle);
    let held: u64 = known(held.copied());
    let lent: Option<&mut u32> = table.get_mut(handle);
    if let Some(value) = lent {
        *value = 8;
    }
    let back: Result<u32, StaleCcb> = table.give_back(handle);
    let stale: Result<u32, StaleCcb> = table.give_back(handle);
    tell(
        rt,
        "held, given back, stale",
        &[held, back? as u64, stale.is_err() as u64],
    )
}
