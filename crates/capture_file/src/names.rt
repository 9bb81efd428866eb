//! Names, numbered by first appearance.

use crate::line_fault::LineFault;
use std::alloc::{AllocError, Global};
use std::collections::BTreeMap;

// How many names are put down that are only told.
const MAX_NOTED: usize = 32;

/// Names, numbered from 0 on in the order in which they came.
#[derive(Drop)]
pub struct Names {
    alloc: Global,
    list: Vec<Vec<u8>>,
    numbers: BTreeMap<Vec<u8>, usize>,
}

impl Names {
    /// No names yet.
    pub fn new(alloc: Global) -> Names {
        Names {
            alloc,
            list: Vec::new(alloc),
            numbers: BTreeMap::new(alloc),
        }
    }

    /// The number of a name, if it came already.
    pub fn number_of(&self, name: &[u8]) -> Option<usize> {
        self.numbers.get(name).copied()
    }

    /// How many names there are.
    pub fn len(&self) -> usize {
        self.list.len()
    }

    /// The number of a device, which is added if it is new.
    pub fn device(&mut self, name: &[u8]) -> Result<u32, LineFault> {
        let number = match self.number_of(name) {
            Some(number) => number,
            None => self.add(name)?,
        };
        u32::try_from(number).map_err(|_| LineFault::TooManyDevices(number))
    }

    /// Adds a name unless it came already, or 32 others did.
    pub fn note(&mut self, name: &[u8]) -> Result<(), AllocError> {
        if self.len() < MAX_NOTED && self.number_of(name).is_none() {
            self.add(name)?;
        }
        Ok(())
    }

    /// Adds a name that is new, and answers its number.
    pub fn add(&mut self, name: &[u8]) -> Result<usize, AllocError> {
        let number = self.list.len();
        self.list.push(Vec::from_slice(self.alloc, name)?)?;
        self.numbers
            .insert(Vec::from_slice(self.alloc, name)?, number)?;
        Ok(number)
    }

    /// The names, in their order.
    pub fn list(&self) -> &[Vec<u8>] {
        self.list.as_slice()
    }
}
