//! Priorities of requests.

ghost use Rattle.std.specs.Prelude.{◌≤◌};

/// Of a read that someone waits for, of metadata and of a flush.
pub const SOON: u32 = 640;
/// Of best effort of level 4, of read-ahead, and of a write that someone waits for.
pub const USUAL: u32 = 896;
/// Of a write that nobody waits for.
pub const LATE: u32 = 1152;
/// Of a discard.
pub const LAST: u32 = 1279;

/// The priority of an I/O class and level, as the kernel packs them: the class in bits 15 to 13, the level in bits 2 to 0.
/// A class that isn't real time, best effort or idle counts as none.
pub fn class_priority(ioprio: u64) -> u32 {
    let level = 32 * level_of(ioprio);
    match (ioprio >> 13) & 7 {
        1 => level,
        2 => 768 + level,
        3 => 1024 + level,
        _ => USUAL,
    }
}

fn level_of(ioprio: u64) -> u32
    ensures { result ≤ 7 }
{
    match ioprio & 7 {
        0 => 0,
        1 => 1,
        2 => 2,
        3 => 3,
        4 => 4,
        5 => 5,
        6 => 6,
        _ => 7,
    }
}

/// The priority of the direction that blkparse's letters say. Reads are waited for unless they are read-ahead, and writes that
/// pass the device's cache are.
pub fn flags_priority(flags: &[u8]) -> u32 {
    match flags.first() {
        Some(b'D') => LAST,
        Some(b'R') => read_priority(flags),
        Some(b'W') => write_priority(flags),
        _ => SOON,
    }
}

fn read_priority(flags: &[u8]) -> u32 {
    if flags.contains(&b'A') && !flags.contains(&b'M') {
        USUAL
    } else {
        SOON
    }
}

fn write_priority(flags: &[u8]) -> u32 {
    if flags.contains(&b'M') {
        SOON
    } else if flags.contains(&b'S') || flags.contains(&b'F') {
        USUAL
    } else {
        LATE
    }
}
