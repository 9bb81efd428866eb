//! What faults say of themselves that the program never prints.

use event_rules::{Event, Refusal};
use sim_worker::LiveFault;
use std::alloc::Global;
use std::fmt::Display;
use std::test::Fail;
use xpt_lock::{GatherFault, Receipt, SeatsFull, SharedFault};
use xpt_state::Reply;

const RECEIPT: Receipt = Receipt {
    at: 7,
    event: Event::Tick,
    reply: Reply::Round(2),
};

// Whether the fault says this of itself.
fn says<T: Display + Drop>(alloc: Global, fault: T, due: &str) -> Result<bool, Fail> {
    Ok(format!(in alloc; "{fault}")?.as_str() == due)
}

// Whether faults of calls on a shared transport say what is wrong.
fn shared_faults_say(alloc: Global) -> Result<bool, Fail> {
    Ok(
        says(alloc, SeatsFull, "no seat is left")?
            && says(alloc, SharedFault::OutOfMemory, "out of memory")?
            && says(alloc, SharedFault::Refused(Refusal::NoDevice), "NoDevice")?
            && says(
                alloc,
                GatherFault::Mismatch(RECEIPT),
                "a receipt doesn't fit the history",
            )?
            && says(alloc, GatherFault::Unnamed(7), "no receipt names place 7")?
            && says(alloc, GatherFault::OutOfMemory, "out of memory")?,
    )
}

// Whether those of runs by threads do.
fn live_faults_say(alloc: Global) -> Result<bool, Fail> {
    Ok(
        says(alloc, LiveFault::Mismatch(RECEIPT), "mismatch at 7")?
            && says(alloc, LiveFault::Unnamed(7), "unnamed place 7")?
            && says(alloc, LiveFault::NoThread, "no thread")?
            && says(alloc, LiveFault::OutOfMemory, "out of memory")?,
    )
}

#[test]
fn faults_say_what_is_wrong(rt: HostRuntime) -> Result<(), Fail> {
    assert!(rt; shared_faults_say(rt.alloc())?);
    assert!(rt; live_faults_say(rt.alloc())?);
    Ok(())
}
