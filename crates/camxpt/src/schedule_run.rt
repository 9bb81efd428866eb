//! The recording as another order would have started its requests.

ghost use Rattle.std.specs.Prelude.{◌≡◌, false};
ghost use Rattle.cam_types.specs.Watched.{has_failed};

use crate::failure::Failure;
use crate::progress::ProgressLine;
use audit_report::{AuditFault, Input, read_input};
use cam_types::Watched;
use conversions::{recording_of, rescheduled};
use cost_plan::plan_with;
use orders::{Order, ordered};
use recording_file::Recording;
use round_net::{Net, NetFault};
use std::alloc::Global;
use std::io::Read;
use std::thread::Threads;

/// The word of the order in which who came first goes first.
pub const FIRST_COME: &str = "first-come";

/// The word of the order in which the heaviest goes first.
pub const BY_WEIGHT: &str = "by-weight";

/// The word of a best schedule.
pub const BEST: &str = "best";

/// By which schedule requests are started.
#[derive(Clone, Copy)]
pub enum NewOrder {
    /// By that of an order as it comes.
    AsItComes(Order),
    /// By a best one.
    Best,
}

impl NewOrder {
    /// The one of this word, of those that the help names.
    pub fn named(word: &str) -> NewOrder {
        if word == FIRST_COME {
            NewOrder::AsItComes(Order::FirstCome)
        } else if word == BEST {
            NewOrder::Best
        } else {
            NewOrder::AsItComes(Order::ByWeight)
        }
    }

    /// The recording, or that of a trace, with its requests started by this order.
    pub fn over<T: Threads + Sync, D: Read>(
        self,
        threads: &T,
        alloc: Global,
        line: &ProgressLine<'_>,
        input: &mut Watched<D>,
    ) -> Result<Recording, Failure>
        requires { has_failed input.old ≡ false }
    {
        let recording = recorded(alloc, input)?;
        self.started(threads, alloc, line, &recording)
    }

    // The recording with its requests started by this order.
    fn started<T: Threads + Sync>(
        self,
        threads: &T,
        alloc: Global,
        line: &ProgressLine<'_>,
        recording: &Recording,
    ) -> Result<Recording, Failure> {
        let net = Net::of_recording(alloc, recording)?;
        match self {
            NewOrder::Best => {
                let best = plan_with(threads, alloc, &net, line)?;
                Ok(rescheduled(alloc, recording, &best.schedule)?)
            }
            NewOrder::AsItComes(order) => {
                let made = ordered(alloc, &net, order)?;
                if made.unsent > 0 || made.late > 0 {
                    return Err(Failure::NotInTime(made.unsent, made.late));
                }
                Ok(rescheduled(alloc, recording, &made.schedule)?)
            }
        }
    }
}

// What was recorded, of a trace too.
fn recorded<D: Read>(alloc: Global, input: &mut Watched<D>) -> Result<Recording, Failure>
    requires { has_failed input.old ≡ false }
{
    match read_input(alloc, input)? {
        Input::Recording(recording) => Ok(recording),
        Input::Trace(history) => match recording_of(alloc, &history) {
            Ok(recording) => Ok(recording),
            Err(NetFault::Unsent(stay)) => Err(AuditFault::Unsent(stay).into()),
            Err(NetFault::OutOfMemory) => Err(AuditFault::OutOfMemory.into()),
        },
    }
}
