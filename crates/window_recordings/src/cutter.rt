//! Cuts windows off a capture, one after the other.

ghost use Rattle.std.specs.Prelude.{◌≡◌, IfOk, IfSome};
ghost use Rattle.capture_windows.specs.Attempts.{requests_in, waiting_at};
ghost use Rattle.capture_windows.specs.Devices.{going_on};

use crate::cut_fault::CutFault;
use crate::cut_window::{Cut, Ending};
use crate::first_round::{first_arrival, first_round};
use crate::layout::{Layout, value_of};
use crate::names::{Names, name_at};
use capture::{CaptureFault, span_nanoseconds};
use capture_windows::{Attempt, MAX_WINDOW_ROUNDS, WindowFault, Windows};
use recording_file::{MAX_REQUESTS, Span};
use std::alloc::Global;

// How many requests a window has at most: a recording's, but for those that are added for devices that are waited for.
const MAX_STARTS: usize = MAX_REQUESTS - 32;

// How many requests go on after a window at most.
const MAX_GOING_ON: usize = 1_048_576;

// What windows are made of, once that is known: how long a round is, how many of them a window has, and how far they were taken.
#[derive(Drop)]
struct Grid {
    round: Span,
    length: u64,
    count: u32,
    windows: Windows,
}

/// Cuts windows off the attempts of a capture, one after the other.
#[derive(Drop)]
pub struct Cutter {
    round: Option<Span>,
    window: u64,
    grid: Option<Grid>,
    number: u64,
}

impl Cutter {
    /// No window yet. One has so many nanoseconds, but a whole number of rounds, at most 65,534; and a round is as long as is given, or as
    /// is usual for the first window.
    pub fn new(round: Option<Span>, window: u64) -> Cutter {
        Cutter {
            round,
            window,
            grid: None,
            number: 0,
        }
    }

    /// When the next window begins. None before a request is known that is taken.
    pub fn begin(&self) -> Option<u64> {
        match &self.grid {
            Some(grid) => Some(grid.windows.begin()),
            None => None,
        }
    }

    /// When a window that begins at a time is over.
    pub fn end_of(&self, begin: u64) -> u64 {
        begin.saturating_add(self.window)
    }

    /// Finds where the first window begins and how long a round is, if a request is known that is taken. From then on that stays.
    ///
    /// # Errors
    ///
    /// `OutOfMemory` if no memory is left.
    pub fn set_begin(
        &mut self,
        alloc: Global,
        attempts: &[Attempt],
        devices: usize,
    ) -> Result<(), CutFault> {
        if self.grid.is_some() {
            return Ok(());
        }
        let Some(begin) = first_arrival(attempts) else {
            return Ok(());
        };
        let round = match self.round {
            Some(round) => round,
            None => first_round(alloc, attempts, begin, self.end_of(begin), devices)?,
        };
        let round = Span {
            count: round.count.max(1),
            ..round
        };
        let length = span_nanoseconds(round).max(1);
        let count = (self.window / length).clamp(1, u64::from(MAX_WINDOW_ROUNDS));
        self.grid = Some(Grid {
            round,
            length,
            count: u32::try_from(count).unwrap_or(MAX_WINDOW_ROUNDS),
            windows: Windows::new(alloc, begin, length),
        });
        Ok(())
    }

    /// Cuts off the next window. It ends before the round with which it would have too many requests. None if it has no round: before
    /// [`Cutter::set_begin`] has found a request, if it is to end before its first round does, and if nothing is left that was started.
    ///
    /// # Errors
    ///
    /// `TooFewSlots` if a device's depth is below what was in flight at it; `Window` if there are too many attempts, or the window ends after
    /// the last time there is; `Capture` if more requests were started in a round than a recording may have; `TooManyOpen` if more than
    /// 1,048,576 go on; `OutOfMemory` if no memory is left.
    pub fn next(
        &mut self,
        alloc: Global,
        layout: &Layout,
        names: Names<'_>,
        attempts: &[Attempt],
        ending: Ending,
    ) -> Result<Option<Cut>, CutFault>
        ensures requests { IfOk result (λ found. IfSome found (λ cut. cut.window.taken.requests.items ≡ requests_in cut.window.span attempts.now)) }
        ensures waiting { IfOk result (λ found. IfSome found (λ cut. cut.window.taken.waiting.items ≡ waiting_at cut.window.span.until attempts.now)) }
        ensures going_on { IfOk result (λ found. IfSome found (λ cut. cut.window.taken.going_on.items ≡ going_on cut.window.span attempts.now)) }
    {
        let Some(grid) = &mut self.grid else {
            return Ok(None);
        };
        add_devices(alloc, &mut grid.windows, layout, names.devices)?;
        let (begin, length) = (grid.windows.begin(), grid.length.max(1));
        let Some(count) = rounds_to(attempts, begin, length, grid.count, ending) else {
            return Ok(None);
        };
        let count = rounds_within(alloc, attempts, begin, length, count)?;
        let window = match grid.windows.next(alloc, attempts, count) {
            Ok(window) => window,
            Err(fault) => return Err(fault_of(layout, names.devices, fault)),
        };
        if window.taken.going_on.len() > MAX_GOING_ON {
            return Err(CutFault::TooManyOpen(window.taken.going_on.len()));
        }
        self.number = self.number.saturating_add(1);
        Ok(Some(Cut {
            number: self.number,
            round: grid.round,
            window,
        }))
    }
}

// Adds the devices that have names and aren't known yet.
fn add_devices(
    alloc: Global,
    windows: &mut Windows,
    layout: &Layout,
    names: &[Vec<u8>],
) -> Result<(), CutFault> {
    for place in windows.devices()..names.len() {
        let name = name_at(alloc, names, place)?;
        windows.add_device(value_of(&layout.depths, &name))?;
    }
    Ok(())
}

// How many rounds a window has that begins at a time: at most so many. None if it has none.
fn rounds_to(
    attempts: &[Attempt],
    begin: u64,
    length: u64,
    count: u32,
    ending: Ending,
) -> Option<u32> {
    let rounds = match ending {
        Ending::Whole => return Some(count),
        Ending::Before(time) => time.saturating_sub(begin).checked_div(length)?,
        Ending::LastStart => {
            let last = last_start(attempts, begin)?;
            last.saturating_sub(begin)
                .checked_div(length)?
                .saturating_add(1)
        }
    };
    let rounds = u32::try_from(rounds).unwrap_or(count).min(count);
    (rounds > 0).then_some(rounds)
}

// The last start of a request that is taken, from a time on.
fn last_start(attempts: &[Attempt], begin: u64) -> Option<u64> {
    let mut last: Option<u64> = None;
    for attempt in attempts {
        if attempt.is_taken
            && let Some(start) = attempt.request.started
            && start >= begin
        {
            last = Some(last.map_or(start, |last| last.max(start)));
        }
    }
    last
}

// How many of so many rounds from a time on have no more starts together than a recording may have.
fn rounds_within(
    alloc: Global,
    attempts: &[Attempt],
    begin: u64,
    length: u64,
    count: u32,
) -> Result<u32, CutFault> {
    let mut starts = vec![in alloc; 0u32; count as usize]?;
    let mut all = 0usize;
    for attempt in attempts {
        if attempt.is_taken
            && let Some(start) = attempt.request.started
            && begin <= start
            && let Some(round) = (start - begin).checked_div(length)
            && let Some(in_round) = starts.get_mut(round as usize)
        {
            *in_round = in_round.saturating_add(1);
            all = all.saturating_add(1);
        }
    }
    if all <= MAX_STARTS {
        return Ok(count);
    }
    match rounds_before(&starts, MAX_STARTS) {
        0 => Err(CaptureFault::TooManyRequests(all).into()),
        rounds => Ok(rounds.min(count)),
    }
}

// How many rounds, by what starts in each, have no more starts together than that.
fn rounds_before(starts: &[u32], most: usize) -> u32 {
    let (mut rounds, mut sum) = (0u32, 0usize);
    for in_round in starts {
        sum = sum.saturating_add(*in_round as usize);
        if sum > most {
            return rounds;
        }
        rounds = rounds.saturating_add(1);
    }
    rounds
}

// A fault of a window as one of the layout or of the capture.
fn fault_of(layout: &Layout, names: &[Vec<u8>], fault: WindowFault) -> CutFault {
    match fault {
        WindowFault::TooFew(device, number) => {
            let mut at = 0;
            if let Some(name) = names.get(device) {
                for (place, depth) in layout.depths.iter().enumerate() {
                    if depth.0.as_bytes() == name.as_slice() {
                        at = place;
                    }
                }
            }
            CutFault::TooFewSlots(at, number)
        }
        WindowFault::OutOfMemory => CutFault::OutOfMemory,
        WindowFault::TooMany | WindowFault::TooLong | WindowFault::NoDevice => {
            CutFault::Window(fault)
        }
    }
}
