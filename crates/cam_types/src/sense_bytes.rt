//! The bytes of sense data that a result keeps.

ghost use Rattle.std.specs.Prelude.{◌≡◌, ℕ, ◌≤◌, List, length, take};
ghost use Rattle.cam_types.specs.Topology.{MAX_SENSE};

use crate::limits::MAX_SENSE;
use std::marker::Model;

/// The first 18 bytes of some sense data, or all of it where it is shorter.
#[derive(Clone, Copy, Debug, PartialEq, Eq)]
pub struct SenseBytes {
    bytes: [u8; 18],
    len: u8,
}

impl Model for SenseBytes {
    ghost use Rattle.std.specs.Prelude.{List, ℕ};

    ghost Value = { List ℕ };

    ghost use Rattle.cam_types.specs.SenseBytes.{kept, IsPadded, padded, padded-kept};

    ghost view = { kept };

    ghost invariant = { IsPadded };

    ghost inverse = { padded };

    ghost inverse_ok = { padded-kept };
}

impl SenseBytes {
    /// Keeps the first 18 bytes.
    pub fn first(bytes: &[u8]) -> SenseBytes
        ensures { result ≡ take MAX_SENSE bytes.now }
    {
        let mut kept = [0; 18];
        let len = bytes.len().min(MAX_SENSE);
        kept[..len].copy_from_slice(&bytes[..len]);
        SenseBytes {
            bytes: kept,
            len: len as u8,
        }
    }

    /// The bytes that are kept.
    pub fn bytes(&self) -> &[u8]
        ensures same { result.now ≡ self.now }
        ensures most { length result.now ≤ MAX_SENSE }
    {
        &self.bytes[..usize::from(self.len)]
    }
}
