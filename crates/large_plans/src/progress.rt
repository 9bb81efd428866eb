//! The progress of a plan.

/// How far a plan by levels of time is.
#[derive(Clone, Copy)]
pub struct Done {
    /// How many parts there are: units with none above them, each with all that is below.
    pub parts: u32,
    /// How many of them are planned.
    pub planned: u32,
    /// How many levels of time are left of the next one. Each takes about twice as long as the one before.
    pub levels_left: u32,
}

/// Receives the progress of a plan, on the thread that plans.
pub trait Progress {
    /// A level of a part is planned; at last, all levels of all parts.
    fn level_planned(&self, _done: Done) {}

    /// So many rounds have their prices, of so many in all: a repair goes from the last round to the first. It is told now and
    /// then, and at last for all of them.
    fn rounds_priced(&self, _priced: u32, _rounds: u32) {}
}

/// Ignores the progress.
#[derive(Clone, Copy, Drop)]
pub struct NoProgress;

impl Progress for NoProgress {}
