//! What is known of one CCB that is alive.

use cam_types::Outcome;
use event_rules::{Event, Submission};
use sense_class::{Class, classify, kind_of};

/// What is known of a CCB that is alive.
#[derive(Clone, Copy, Debug, PartialEq, Eq)]
pub struct Ccb {
    /// What was submitted.
    pub submission: Submission,
    /// Whether it was sent and hasn't completed.
    pub in_flight: bool,
    /// Whether it completed with an error on which nobody has decided.
    pub recovering: bool,
    /// Its last result.
    pub outcome: Option<Outcome>,
    /// How many of its requeues counted as retries.
    pub counted: u32,
    /// The number of its stays before the present one, or before the last where it has none.
    pub attempt: u32,
}

impl Ccb {
    ghost use Rattle.std.specs.Prelude.{◌≡◌, ◌-◌, ◌^◌, ◌<◌};
    ghost use Rattle.xpt_core.specs.Change.{class_of_row, counts, next_ccb};

    /// The class of its last result.
    pub fn class(&self) -> Option<Class>
        ensures { result ≡ class_of_row self.now }
    {
        let outcome = self.outcome?;
        Some(classify(&outcome, self.counted, self.submission.retries))
    }

    // Whether a requeue counts as a retry.
    fn counts(self) -> bool
        ensures { result ≡ counts self }
    {
        match self.outcome {
            Some(outcome) => kind_of(&outcome).is_counted(),
            None => false,
        }
    }

    /// What is known of the CCB of this number after the event.
    pub(crate) fn next(self, ccb: u32, event: &Event) -> Ccb
        requires counted { self.counted < 2 ^ 32 - 1 }
        requires attempt { self.attempt < 2 ^ 32 - 1 }
        ensures { result ≡ next_ccb ccb event.now self }
    {
        let requeued = event.is_requeue_of(ccb);
        Ccb {
            submission: self.submission,
            in_flight: if event.is_send_or_done_of(ccb) {
                event.is_send_of(ccb)
            } else {
                self.in_flight
            },
            recovering: if event.concerns(ccb) {
                event.is_erring()
            } else {
                self.recovering
            },
            outcome: if event.is_done_of(ccb) {
                event.outcome()
            } else {
                self.outcome
            },
            counted: self.counted + u32::from(requeued && self.counts()),
            attempt: self.attempt + u32::from(requeued),
        }
    }
}
