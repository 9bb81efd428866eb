//! Where the program prints.

use crate::failure::Failure;
use audit_report::AuditFault;
use cam_types::{Watched, write_whole};
use std::alloc::AllocError;
use std::io;
use std::io::Write;

/// Standard output, which keeps why a write failed.
#[derive(Drop)]
pub struct Output<W> {
    device: W,
    failed: Option<io::Error>,
}

impl<W> Output<W> {
    /// Why a write failed, if one did.
    pub fn failed(&self) -> Option<io::Error> {
        self.failed
    }
}

impl<W: Write> Write for Output<W> {
    ghost contents = { λ o. W.contents o.device };

    /// Writes as the device does.
    fn write(&mut self, buf: &[u8]) -> io::Result<usize> {
        match self.device.write(buf) {
            Ok(count) => Ok(count),
            Err(error) => {
                self.failed = Some(error);
                Err(error)
            }
        }
    }

    /// Flushes as the device does.
    fn flush(&mut self) -> io::Result<()> {
        match self.device.flush() {
            Ok(()) => Ok(()),
            Err(error) => {
                self.failed = Some(error);
                Err(error)
            }
        }
    }
}

/// Whether a write failed since whoever read the output has ended, as `head` does. Then nothing is left to do.
pub fn is_unread(error: io::Error) -> bool {
    error.kind() == io::ErrorKind::BrokenPipe
}

/// Standard output, to which nothing was written yet.
pub fn standard_output(rt: &HostRuntime) -> Output<io::Printer<'_, HostRuntime>> {
    Output {
        device: io::writer(rt),
        failed: None,
    }
}

/// A file, to which nothing was written yet.
pub fn file_output<W>(device: W) -> Output<W> {
    Output {
        device,
        failed: None,
    }
}

/// Writes a text.
pub fn print<W: Write>(out: &mut Output<W>, text: &str) -> Result<(), Failure> {
    match write_whole(&mut Watched::new(&mut *out), text.as_bytes()) {
        Ok(()) => Ok(()),
        Err(_) => Err(match out.failed {
            Some(error) => Failure::CannotWrite(error),
            None => Failure::Audit(AuditFault::WriteFailed),
        }),
    }
}

/// The line with its line feed.
pub fn closed(line: Result<String, AllocError>) -> Result<String, AllocError> {
    let mut line = line?;
    line.push('\n')?;
    Ok(line)
}
