//! The calls of `cam_path`: paths of devices, read, written and compared.

use crate::tell::{begin, end, tell};
use anyhow::Result;
use cam_path::{BadPath, CamPath};
use cam_types::Device;
use std::alloc::{AllocError, Global};
use std::io;
use std::io::Write;

const DEVICE: Device = Device {
    bus: 0,
    target: 1,
    lun: 0,
    openings: 1,
};

/// Makes each call once, and prints a line of what they answer.
pub fn call_cam_path(rt: &HostRuntime) -> Result<()> {
    begin(rt, "cam_path")?;
    let path: CamPath = CamPath::of(&DEVICE);
    write_path(rt, rt.alloc(), &path)?;
    call_read(rt, path)?;
    end(rt)
}

fn call_read(rt: &HostRuntime, path: CamPath) -> Result<()> {
    let later = CamPath {
        bus: 0u8,
        target: 2u16,
        lun: 0u16,
    };
    let read: Result<CamPath, BadPath> = CamPath::read(b"0:2:0");
    let place: usize = match CamPath::read(b"0:01:0") {
        Ok(_) => 0,
        Err(BadPath(place)) => place,
    };
    let answers = [
        (read == Ok(later)) as u64,
        (path < later) as u64,
        place as u64,
    ];
    tell(rt, "read, ordered, bad at", &answers)
}

fn write_path(rt: &HostRuntime, alloc: Global, path: &CamPath) -> Result<()> {
    let mut text: Vec<u8> = b" ".to_vec(alloc)?;
    let written: Result<(), AllocError> = path.write(&mut text);
    written?;
    io::writer(rt).write_all(&text)?;
    Ok(())
}
