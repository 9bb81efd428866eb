//! The lines that the loop prints.

use std::fmt::Display;
use std::io;

/// Prints the transport's answers, a line each; or nothing, if standard output is for the trace.
#[derive(Drop)]
pub struct Lines<'a> {
    rt: &'a HostRuntime,
    printed: bool,
}

impl<'a> Lines<'a> {
    /// Lines that are printed or aren't.
    pub fn new(rt: &'a HostRuntime, printed: bool) -> Lines<'a> {
        Lines { rt, printed }
    }

    /// Prints one line, if lines are printed.
    pub fn print<D: Display + Drop>(&self, line: D) -> io::Result<()> {
        if self.printed {
            self.rt.println(line)
        } else {
            Ok(())
        }
    }
}
