//! How much the requests of a device differ in size.

use std::alloc::{AllocError, Global};
use std::collections::BTreeMap;

// How many times as large as the lower median the largest request of a device may be.
const MAX_TIMES: u64 = 16;

/// How many started requests of each size the devices have. The size is in the unit of the input: sectors or bytes.
#[derive(Drop)]
pub struct Sizes {
    counts: BTreeMap<(u32, u64), u64>,
}

impl Sizes {
    /// No requests yet.
    pub fn new(alloc: Global) -> Sizes {
        Sizes {
            counts: BTreeMap::new(alloc),
        }
    }

    /// Adds a started request of a device. One of size 0 is passed over.
    pub fn add(&mut self, device: u32, size: u64) -> Result<(), AllocError> {
        if size == 0 {
            return Ok(());
        }
        match self.counts.get_mut(&(device, size)) {
            Some(count) => *count = count.saturating_add(1),
            None => {
                self.counts.insert((device, size), 1)?;
            }
        }
        Ok(())
    }

    /// Whether the largest request of a device is more than 16 times as large as the lower median of its requests.
    pub fn are_uneven(&self, device: u32) -> bool {
        self.largest(device) > self.median(device).saturating_mul(MAX_TIMES)
    }

    fn largest(&self, device: u32) -> u64 {
        let mut largest = 0;
        for ((of, size), _) in self.counts.iter() {
            if *of == device {
                largest = *size;
            }
        }
        largest
    }

    fn how_many(&self, device: u32) -> u64 {
        let mut sum: u64 = 0;
        for ((of, _), count) in self.counts.iter() {
            if *of == device {
                sum = sum.saturating_add(*count);
            }
        }
        sum
    }

    // The least size that at least half of the requests don't exceed. Sizes come in their order.
    fn median(&self, device: u32) -> u64 {
        let all = self.how_many(device);
        let mut below: u64 = 0;
        for ((of, size), count) in self.counts.iter() {
            if *of == device {
                below = below.saturating_add(*count);
                if below.saturating_mul(2) >= all {
                    return *size;
                }
            }
        }
        0
    }
}
