//! A device's path, read and written.

ghost use Rattle.std.specs.Prelude.{◌≡◌, ◌++◌, length, take, Ok, Err, IfOk, OnOk, OnErr, MatchResult};
ghost use Rattle.cam_path.specs.Paths.{address_of, spelled, reading, Fits, CamPath};

use crate::reading::path_in;
use cam_types::Device;
use itoa::Buffer;
use std::alloc::AllocError;
use thiserror::Error;

/// The address of a device. Paths are ordered by bus, then target, then lun.
#[derive(Clone, Copy, Debug, PartialEq, Eq, PartialOrd, Ord)]
pub struct CamPath {
    /// The number of the adapter.
    pub bus: u8,
    /// The target.
    pub target: u16,
    /// The logical unit. One above 16,383 names no device.
    pub lun: u16,
}

/// A text that is no path, by the offset of its first fault: where the first number begins that is empty, has a leading
/// zero or is too large, or where a `:` or the end is due and isn't there.
#[derive(Clone, Copy, Debug, PartialEq, Eq, Error)]
#[error("no path: byte {0}")]
pub struct BadPath(pub usize);

impl CamPath {
    /// The path of a device.
    pub fn of(device: &Device) -> CamPath
        ensures { result ≡ address_of device.now }
    {
        CamPath {
            bus: device.bus,
            target: device.target,
            lun: device.lun,
        }
    }

    /// The path that a text spells: three numbers without leading zeros, of which the bus is at most 255 and the others
    /// are at most 65,535, with a `:` between each two.
    pub fn read(text: &[u8]) -> Result<CamPath, BadPath>
        // What is read is spelled so, and what is spelled so is read.
        ensures spelled { IfOk result (λ p. text.now ≡ spelled p) }
        ensures read { (p : CamPath) → Fits p → text.now ≡ spelled p → result ≡ Ok p }
        ensures place { MatchResult result (λ p. reading text.now ≡ Ok p) (λ e. reading text.now ≡ Err e.0) }
    {
        match path_in(text) {
            Ok(path) => Ok(path),
            Err(place) => Err(BadPath(place)),
        }
    }

    /// Puts the path's text after the others.
    pub fn write(&self, text: &mut Vec<u8>) -> Result<(), AllocError>
        ensures written { OnOk result (text.new.items ≡ text.old.items ++ spelled self.now) }
        ensures kept { OnErr result (text.new.items ≡ text.old.items) }
    {
        let before = text.len();
        let answer = self.append(text);
        if answer.is_err() {
            text.truncate(before);
        }
        answer
    }

    // Puts the path's text after the others, or the front of it where memory runs out.
    fn append(&self, text: &mut Vec<u8>) -> Result<(), AllocError>
        ensures written { OnOk result (text.new.items ≡ text.old.items ++ spelled self.now) }
        ensures front { OnErr result (take (length text.old.items) text.new.items ≡ text.old.items) }
    {
        push_number(text, u16::from(self.bus))?;
        text.extend_from_slice(b":")?;
        push_number(text, self.target)?;
        text.extend_from_slice(b":")?;
        push_number(text, self.lun)?;
        Ok(())
    }
}

// Puts a number after the text, in decimal.
fn push_number(text: &mut Vec<u8>, number: u16) -> Result<(), AllocError>
    ensures written { OnOk result (text.new.items ≡ text.old.items ++ decimal number) }
    ensures kept { OnErr result (text.new.items ≡ text.old.items) }
{
    let mut digits = Buffer::new();
    text.extend_from_slice(digits.format(number).as_bytes())
}

ghost use Rattle.std.specs.Prelude.{decimal};
