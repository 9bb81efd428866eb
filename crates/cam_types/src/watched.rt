//! Readers and writers that remember whether a call failed.

ghost use Rattle.std.specs.Prelude.{◌≡◌, ◌==◌, ◌&&◌, ◌||◌, not, false, true, length, is_err, is_ok, Ok, IfOk};
ghost use Rattle.std.specs.Io.{ReadsAtMost, WritesAtMost};
ghost use Rattle.std.specs.Io.KnownBytes.{Keeps, ReadConsumes, WriteAppends};
ghost use Rattle.cam_types.specs.Watched.{device_of, has_failed, is_flushed, took_nothing};

use std::io;
use std::io::{Read, Write};

/// A reader or writer that remembers whether a call of it has failed, and whether a flush stands after its last write.
#[derive(Debug, Drop)]
pub struct Watched<D> {
    device: D,
    failed: bool,
    flushed: bool,
}

impl<D> Watched<D> {
    /// Watches a reader or writer, of which no call has failed yet.
    pub fn new(device: D) -> Watched<D>
        ensures device { device_of result ≡ device }
        ensures calm { has_failed result ≡ false }
        ensures flushed { is_flushed result ≡ true }
    {
        Watched {
            device,
            failed: false,
            flushed: true,
        }
    }

    /// Whether a call has failed: a read, a write or a flush with an error, or a write that took none of some bytes.
    pub fn failed(&self) -> bool
        ensures { result ≡ has_failed self.now }
    {
        self.failed
    }
}

impl<R: Read> Read for Watched<R> {
    ghost remaining = { λ w. R.remaining (device_of w) };

    /// Reads as the device does, and notes an error.
    fn read(&mut self, buf: &mut [u8]) -> io::Result<usize>
        ensures bound { ReadsAtMost result buf.new }
        ensures bytes { ReadConsumes (R.remaining (device_of self.old)) (R.remaining (device_of self.new)) result buf.new }
        ensures noted { has_failed self.new ≡ (has_failed self.old || is_err result) }
        ensures flushed { is_flushed self.new ≡ is_flushed self.old }
    {
        let answer = self.device.read(buf);
        if answer.is_err() {
            self.failed = true;
        }
        answer
    }
}

impl<W: Write> Write for Watched<W> {
    ghost contents = { λ w. W.contents (device_of w) };

    /// Writes as the device does, and notes an error, or that none of some bytes were taken.
    fn write(&mut self, buf: &[u8]) -> io::Result<usize>
        ensures bound { WritesAtMost result buf.now }
        ensures bytes { WriteAppends (W.contents (device_of self.old)) (W.contents (device_of self.new)) result buf.now }
        ensures noted { has_failed self.new ≡ (has_failed self.old || is_err result || took_nothing result buf.now) }
        ensures flushed { is_flushed self.new ≡ false }
    {
        self.flushed = false;
        let answer = self.device.write(buf);
        let failed = match &answer {
            Ok(taken) => *taken == 0 && !buf.is_empty(),
            Err(_) => true,
        };
        if failed {
            self.failed = true;
        }
        answer
    }

    /// Flushes the device, and notes an error.
    fn flush(&mut self) -> io::Result<()>
        ensures bytes { Keeps (W.contents (device_of self.old)) (W.contents (device_of self.new)) }
        ensures noted { has_failed self.new ≡ (has_failed self.old || is_err result) }
        ensures flushed { is_flushed self.new ≡ (is_flushed self.old || is_ok result) }
    {
        let answer = self.device.flush();
        if answer.is_ok() {
            self.flushed = true;
        } else {
            self.failed = true;
        }
        answer
    }
}
