//! The names of devices and drivers.

use std::alloc::{AllocError, Global};

/// The names of devices and drivers, each at its number's place.
#[derive(Clone, Copy)]
pub struct Names<'a> {
    pub devices: &'a [Vec<u8>],
    pub drivers: &'a [Vec<u8>],
}

// The name at a place, with a mark for what isn't UTF-8; an empty one if there is none.
pub(crate) fn name_at(
    alloc: Global,
    names: &[Vec<u8>],
    place: usize,
) -> Result<String, AllocError> {
    match names.get(place) {
        Some(name) => String::from_utf8_lossy(alloc, name),
        None => Ok(String::new(alloc)),
    }
}
