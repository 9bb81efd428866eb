//! The requests of a timeline: the slots of each device, with what stood in them.

use crate::slots::Slots;
use crate::timeline::document::device_process;
use crate::timeline::freezes::FREEZE_ROWS;
use crate::timeline::writer::{EventWriter, Track};
use round_net::Net;
use std::alloc::{AllocError, Global};
use wait_causes::{ExplainedStay, Explanation, FirstWaits, InputKind};
use wording::places_by;

/// Puts the requests: in the order in which they arrived each has the first slot of its device that is free from its arrival to
/// its send. At most so many waits of a request are listed, and what is left of them is one slice more.
pub(crate) fn put_requests(
    writer: &mut EventWriter,
    net: &Net,
    explanation: &Explanation,
    most: usize,
) -> Result<(), AllocError> {
    let stays = explanation.stays();
    let mut slots = slots_for(writer.alloc, net)?;
    let taken = slots_of(writer.alloc, &mut slots, stays)?;
    for (place, (stay, slot)) in stays.iter().zip(&taken).enumerate() {
        let waits = explanation.first_waits(writer.alloc, place, most)?;
        let track = track_of(stay.device, *slot);
        put_request(writer, explanation.kind(), stay, &waits, track)?;
    }
    name_all(writer, &slots)
}

// Names the slots of each device.
fn name_all(writer: &mut EventWriter, slots: &[Slots]) -> Result<(), AllocError> {
    let mut device = 0u32;
    for taken in slots {
        name_slots(writer, device, taken.count())?;
        device = device.saturating_add(1);
    }
    Ok(())
}

// Slots for each device.
fn slots_for(alloc: Global, net: &Net) -> Result<Vec<Slots>, AllocError> {
    let mut slots = Vec::new(alloc);
    for _device in 0..net.devices() {
        slots.push(Slots::new(alloc))?;
    }
    Ok(slots)
}

// The slot of each stay, taken from those of its device in the order in which the stays arrived; of those of one round the
// smaller place first.
fn slots_of(
    alloc: Global,
    slots: &mut [Slots],
    stays: &[ExplainedStay],
) -> Result<Vec<u32>, AllocError> {
    let mut arrivals = Vec::with_capacity(alloc, stays.len())?;
    for stay in stays {
        arrivals.push(u64::from(stay.arrival))?;
    }
    let mut taken = vec![in alloc; 0u32; stays.len()]?;
    for place in &places_by(alloc, &arrivals)? {
        if let Some(stay) = stays.get(*place)
            && let Some(there) = slots.get_mut(stay.device as usize)
            && let Some(slot) = taken.get_mut(*place)
        {
            *slot = there.take(stay.arrival, stay.live)?;
        }
    }
    Ok(taken)
}

// The row of a slot.
fn track_of(device: u32, slot: u32) -> Track {
    Track {
        process: device_process(device),
        row: slot.saturating_add(1).saturating_add(FREEZE_ROWS),
    }
}

// Names the slots of a device.
fn name_slots(writer: &mut EventWriter, device: u32, count: u32) -> Result<(), AllocError> {
    for slot in 0..count {
        let name = format!(in writer.alloc; "slot {slot}")?;
        writer.row(track_of(device, slot), &name)?;
    }
    Ok(())
}

// Puts a request, with these of its waits and its send in it, and a slice for what it waited after them.
fn put_request(
    writer: &mut EventWriter,
    kind: InputKind,
    stay: &ExplainedStay,
    waits: &FirstWaits,
    track: Track,
) -> Result<(), AllocError> {
    let name = name_of(writer.alloc, kind, stay)?;
    let last = stay.live.max(stay.arrival);
    writer.slice(
        track,
        &name,
        (stay.arrival, last),
        &[
            ("driver", u64::from(stay.driver)),
            ("priority", u64::from(stay.priority)),
            ("weight", u64::from(stay.weight)),
            ("arrival", u64::from(stay.arrival)),
            ("sent", u64::from(stay.live)),
            ("best", u64::from(stay.best)),
            ("cost", stay.cost()),
        ],
    )?;
    for wait in &waits.listed {
        writer.slice(track, wait.cause.name(), (wait.first, wait.last), &[])?;
    }
    if waits.more > 0 {
        put_more(writer, stay, waits, track)?;
    }
    writer.slice(track, "sent", (last, last), &[])
}

// What a request is called.
fn name_of(alloc: Global, kind: InputKind, stay: &ExplainedStay) -> Result<String, AllocError> {
    match kind {
        InputKind::Trace => format!(in alloc; "CCB {} (try {})", stay.ccb, stay.attempt),
        InputKind::Recording => format!(in alloc; "request {}", stay.ccb),
    }
}

// Puts what a request waited after these waits as one slice, with how many waits they are and what they cost.
fn put_more(
    writer: &mut EventWriter,
    stay: &ExplainedStay,
    waits: &FirstWaits,
    track: Track,
) -> Result<(), AllocError> {
    let name = format!(in writer.alloc; "{} more waits", waits.more)?;
    let rounds = stay.live.saturating_sub(waits.next);
    let cost = u64::from(stay.weight).saturating_mul(u64::from(rounds));
    writer.slice(
        track,
        &name,
        (waits.next, stay.live.saturating_sub(1)),
        &[("waits", waits.more), ("cost", cost)],
    )
}
