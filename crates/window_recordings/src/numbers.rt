//! Numbers of devices or drivers in a window.

use crate::names::name_at;
use std::alloc::{AllocError, Global};

/// Numbers of places in a list of names, in the order in which they were asked for first.
#[derive(Drop)]
pub(crate) struct Numbers {
    alloc: Global,
    // The places, each at its number.
    places: Vec<u32>,
    // The number of each place that has one.
    known: Vec<Option<u32>>,
}

impl Numbers {
    /// No number yet, of so many places.
    pub(crate) fn new(alloc: Global, places: usize) -> Result<Numbers, AllocError> {
        Ok(Numbers {
            alloc,
            places: Vec::new(alloc),
            known: vec![in alloc; None; places]?,
        })
    }

    /// The number of a place: the next one, if it has none yet.
    pub(crate) fn number(&mut self, place: u32) -> Result<u32, AllocError> {
        if let Some(number) = self.known(place) {
            return Ok(number);
        }
        let number = u32::try_from(self.places.len()).unwrap_or(u32::MAX);
        self.places.push(place)?;
        if let Some(known) = self.known.get_mut(place as usize) {
            *known = Some(number);
        }
        Ok(number)
    }

    /// The number of a place, if it has one.
    pub(crate) fn known(&self, place: u32) -> Option<u32> {
        self.known.get(place as usize).copied().flatten()
    }

    /// The places, each at its number.
    pub(crate) fn places(&self) -> &[u32] {
        &self.places
    }

    /// The same, without anything else.
    pub(crate) fn into_places(self) -> Vec<u32> {
        self.places
    }

    /// The names of the places, each at its number.
    pub(crate) fn names(&self, names: &[Vec<u8>]) -> Result<Vec<String>, AllocError> {
        let mut named = Vec::new(self.alloc);
        for place in &self.places {
            named.push(name_at(self.alloc, names, *place as usize)?)?;
        }
        Ok(named)
    }
}
