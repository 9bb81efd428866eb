//! The processes that have requests.

use std::alloc::{AllocError, Global};

/// Whether several processes have requests.
#[derive(Drop)]
pub struct Tenants {
    alloc: Global,
    first: Option<Vec<u8>>,
    are_several: bool,
}

impl Tenants {
    /// No process yet.
    pub fn new(alloc: Global) -> Tenants {
        Tenants {
            alloc,
            first: None,
            are_several: false,
        }
    }

    /// A request is of the process of this id. An empty one isn't known, and 0 is none.
    pub fn note(&mut self, pid: &[u8]) -> Result<(), AllocError> {
        if pid.is_empty() || pid == b"0".as_slice() {
            return Ok(());
        }
        match &self.first {
            None => self.first = Some(Vec::from_slice(self.alloc, pid)?),
            Some(first) => self.are_several = self.are_several || first.as_slice() != pid,
        }
        Ok(())
    }

    /// Whether there were several.
    pub fn are_several(&self) -> bool {
        self.are_several
    }
}
