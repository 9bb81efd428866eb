//! The progress of a run on threads.

ghost use Rattle.xpt_lock.specs.Calls.{IsLook};

use xpt_state::Look;

/// Receives the progress of a run: from the thread of its round keeper, which holds no lock meanwhile, each time that someone rests.
pub trait Progress {
    /// What there is to see of the transport now: of one with a legal history.
    fn show(&self, look: Look)
        requires { IsLook look };
}

/// Ignores the progress.
#[derive(Clone, Copy, Debug, Drop)]
pub struct NoProgress;

impl Progress for NoProgress {
    fn show(&self, _look: Look) {}
}
