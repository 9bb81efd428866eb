//! What a completion comes to: its class, and the status to hand up.

ghost use Rattle.std.specs.Prelude.{◌≡◌};
ghost use Rattle.xpt_state.specs.Replies.{has_sense, value_of};
ghost use Rattle.xpt_state.specs.Rows.{done_by};

use cam_types::Outcome;
use sense_class::{Class, classify, read_sense};
use xpt_core::Ccb;

/// What a completion comes to.
#[derive(Clone, Copy, Debug, PartialEq, Eq)]
pub struct Done {
    /// The class of the result.
    pub class: Class,
    /// The CAM status in its lower six bits, with 0x40 (CAM_DEV_QFRZN) where the completion froze its device's queue and
    /// 0x80 (CAM_AUTOSNS_VALID) where the kept sense data can be read. That freeze is lifted by `requeue` or `finish` of
    /// the CCB, and not by `release_dev`.
    pub value: u8,
}

impl Done {
    /// What a completion of the CCB comes to.
    pub(crate) fn of(row: &Ccb, outcome: &Outcome) -> Done
        ensures { result ≡ done_by row.now outcome.now }
    {
        let errs = outcome.status & 0x3f != 0x01;
        Done {
            class: classify(outcome, row.counted, row.submission.retries),
            value: Done::value_of(outcome, errs && !row.submission.flags.qfrzdis),
        }
    }

    /// The value of a completion that did or didn't freeze its device's queue.
    pub(crate) fn value_of(outcome: &Outcome, froze: bool) -> u8
        ensures { result ≡ value_of outcome.now froze }
    {
        let status = outcome.status & 0x3f;
        let frozen = if froze { 0x40 } else { 0 };
        let sensed = if has_sense(outcome) { 0x80 } else { 0 };
        status + frozen + sensed
    }
}

fn has_sense(outcome: &Outcome) -> bool
    ensures { result ≡ has_sense outcome.now }
{
    read_sense(outcome.sense.bytes()).is_some()
}
