//! Lanes of bars: stays that are drawn side by side don't cover one another.

use crate::scene::Scene;
use crate::slots::Slots;
use std::alloc::{AllocError, Global};
use wording::{items_at, places_by};

/// The lanes of the device's stays at these places, each the places of its stays: in the order in which they arrived each
/// stay has the first lane that is free from its arrival to its last mark.
pub(crate) fn lanes_of(
    scene: &Scene,
    places: &[usize],
    device: u32,
) -> Result<Vec<Vec<usize>>, AllocError> {
    let mut slots = Slots::new(scene.alloc);
    let mut lanes = Vec::new(scene.alloc);
    for place in &by_arrival(scene, places, device)? {
        if let Some(stay) = scene.explanation.stays().get(*place) {
            let slot = slots.take(stay.arrival, stay.live.max(stay.best))?;
            put_in(scene.alloc, &mut lanes, slot as usize, *place)?;
        }
    }
    Ok(lanes)
}

// Puts a place into the lane of a slot, which may be the next new one.
fn put_in(
    alloc: Global,
    lanes: &mut Vec<Vec<usize>>,
    slot: usize,
    place: usize,
) -> Result<(), AllocError> {
    if slot >= lanes.len() {
        lanes.push(Vec::new(alloc))?;
    }
    if let Some(lane) = lanes.get_mut(slot) {
        lane.push(place)?;
    }
    Ok(())
}

// Those of these places at which a stay of the device is, in the order in which they arrived; of those of one round in the order
// given.
fn by_arrival(scene: &Scene, places: &[usize], device: u32) -> Result<Vec<usize>, AllocError> {
    let (mut found, mut arrivals) = (Vec::new(scene.alloc), Vec::new(scene.alloc));
    for place in places {
        if let Some(stay) = scene.explanation.stays().get(*place)
            && stay.device == device
        {
            found.push(*place)?;
            arrivals.push(u64::from(stay.arrival))?;
        }
    }
    items_at(scene.alloc, &found, &places_by(scene.alloc, &arrivals)?)
}
