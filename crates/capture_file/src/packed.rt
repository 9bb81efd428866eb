//! Files that have to be printed by another program first.

use thiserror::Error;

/// A file whose first bytes say that it isn't text, and what prints it.
#[derive(Clone, Copy, Debug, PartialEq, Eq, Error)]
pub enum Packed {
    /// It is packed by gzip.
    #[error("it is packed by gzip: give what `zcat` prints of it")]
    Gzip,
    /// It is what `perf record` writes.
    #[error("it is what perf record writes: give what `perf script --ns` prints of it")]
    PerfData,
    /// It is what `trace-cmd record` writes.
    #[error("it is what trace-cmd record writes: give what `trace-cmd report` prints of it")]
    TraceDat,
    /// It is what `blktrace` writes.
    #[error("it is what blktrace writes: give what `blkparse` prints of it")]
    Blktrace,
}

// How they begin. The first byte of blktrace's files is the version of their form.
const FRONTS: [(&[u8], Packed); 4] = [
    (b"\x1f\x8b", Packed::Gzip),
    (b"PERFILE2", Packed::PerfData),
    (b"\x17\x08\x44tracing", Packed::TraceDat),
    (b"\x07tae", Packed::Blktrace),
];

impl Packed {
    /// What a file is that begins with these bytes, if it is one of those.
    pub fn of(front: &[u8]) -> Option<Packed> {
        for (begin, packed) in FRONTS {
            if front.starts_with(begin) {
                return Some(packed);
            }
        }
        None
    }
}
