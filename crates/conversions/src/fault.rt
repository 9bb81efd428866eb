//! Why there is no script of what was recorded.

ghost use Rattle.std.specs.Prelude.{◌≡◌};
ghost use Rattle.conversions.specs.declared.fault.ScriptFault.TheVariants.{OutOfMemory};

use std::alloc::AllocError;
use thiserror::Error;

/// What is more than a script may have, in the order in which it is looked for: of a recording all of these, of a history the
/// last two. Memory may run out before any is known.
#[derive(Clone, Copy, Debug, Error)]
pub enum ScriptFault {
    /// A recording has this many rounds.
    #[error("{0} rounds: a script has at most 512")]
    Rounds(u32),
    /// A recording has this many requests.
    #[error("{0} requests: a script has at most 4096 steps")]
    Requests(usize),
    /// A recording's device of this number takes this many requests in some round. It is the first such device.
    #[error("dev {0} takes {1} in a round: a script has at most 255 openings")]
    Device(u32, u32),
    /// A recording's adapter of this number does. It is the first such adapter.
    #[error("sim {0} takes {1} in a round: a script has at most 255 openings")]
    Adapter(u32, u32),
    /// A recording's link of this number does. It is the first such link.
    #[error("link {0} takes {1} in a round: a script has at most 255 openings")]
    Link(u32, u32),
    /// The first command of a driver beyond 7 is that of this driver.
    #[error("driver {0}: a script has drivers 0 to 7")]
    Driver(u8),
    /// The submits and pauses are this many.
    #[error("{0} steps: a script has at most 4096")]
    Steps(u32),
    /// There is no memory left.
    #[error("out of memory")]
    OutOfMemory,
}

impl From<AllocError> for ScriptFault {
    ghost from_gives = { λ _ e. e ≡ OutOfMemory };

    fn from(_error: AllocError) -> ScriptFault {
        ScriptFault::OutOfMemory
    }
}
