//! The calls of one run, read and made.

use crate::calls::answer::Answer;
use crate::calls::call::Call;
use crate::calls::line::read_line;
use crate::calls::maker::make;
use crate::calls::opening::Opening;
use crate::fault::Fault;
use std::alloc::{AllocError, Global};
use xpt_state::Xpt;

/// A call, and the line that asks for it.
#[derive(Clone, Copy)]
pub struct Line<'a> {
    pub text: &'a str,
    pub call: Call,
}

/// A run: a transport to open, and the calls on it.
#[derive(Drop)]
pub struct Run<'a> {
    /// What the run shows.
    pub name: &'a str,
    /// What the transport is opened with.
    pub opening: Opening,
    /// The calls, in order.
    pub lines: Vec<Line<'a>>,
}

impl<'a> Run<'a> {
    /// Reads the lines of each run: `run` with its name, then what the transport is opened with, and the calls.
    pub fn read_all(alloc: Global, text: &'a str) -> Result<Vec<Run<'a>>, Fault> {
        let mut runs: Vec<Run> = Vec::new(alloc);
        let mut number = 0usize;
        for line in text.lines() {
            number = number.saturating_add(1);
            if let Some(name) = line.strip_prefix("run ") {
                runs.push(Run::new(alloc, name)).map_err(AllocError::from)?;
                continue;
            }
            let Some(run) = runs.last_mut() else {
                return Err(Fault::Line(number));
            };
            if !run.add(line)? {
                return Err(Fault::Line(number));
            }
        }
        Ok(runs)
    }

    fn new(alloc: Global, name: &'a str) -> Run<'a> {
        Run {
            name,
            opening: Opening::new(alloc),
            lines: Vec::new(alloc),
        }
    }

    // Adds what a line says, and answers whether it says something.
    fn add(&mut self, text: &'a str) -> Result<bool, AllocError> {
        let Some(words) = read_line(text) else {
            return Ok(false);
        };
        if self.opening.add(&words)? {
            return Ok(true);
        }
        let Some(call) = Call::read(&words) else {
            return Ok(false);
        };
        self.lines.reserve(1)?;
        self.lines.push_reserved(Line { text, call });
        Ok(true)
    }

    /// Makes the calls, in order, and keeps what comes of each.
    pub fn make(&self, xpt: &mut Xpt, answers: &mut [Answer]) {
        for (line, answer) in self.lines.iter().zip(answers.iter_mut()) {
            *answer = make(xpt, line.call);
        }
    }
}
