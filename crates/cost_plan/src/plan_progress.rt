//! The progress of a plan.

use large_plans::Done;

/// Receives the progress of a plan. A part has the stays of all adapters on one link, or of an adapter on no link.
pub trait PlanProgress {
    /// The planning of the part of which this is the least adapter begins. It goes on when this returns. The thread that
    /// plans the part says so.
    fn begun(&self, adapter: u32);

    /// That much of a plan by levels of time is made. The caller's thread says so.
    fn planned(&self, _done: Done) {}

    /// So many of a plan's rounds are mended, of so many in all: a plan by repair goes from the last round to the first. The
    /// caller's thread says so, now and then.
    fn mended(&self, _mended: u32, _rounds: u32) {}
}

/// Ignores the progress of a plan.
#[derive(Clone, Copy, Debug)]
pub struct NoPlanProgress;

impl PlanProgress for NoPlanProgress {
    fn begun(&self, _adapter: u32) {}
}
