//! How a run ends.

use std::fmt;

/// How a run ended.
#[derive(Clone, Copy, Debug, PartialEq, Eq)]
pub enum Ending {
    /// Each driver has done its rows, each command was sent, and none is in flight or waits for a decision.
    Drained,
    /// The last round that the limits allow is over, and there is more to do.
    RoundsFull,
    /// As many events happened as the limits allow, and there is more to do.
    HistoryFull,
}

impl fmt::Display for Ending {
    fn fmt<W: fmt::Write>(&self, f: &mut fmt::Formatter<W>) -> fmt::Result {
        f.write_str(match self {
            Ending::Drained => "drained",
            Ending::RoundsFull => "rounds full",
            Ending::HistoryFull => "history full",
        })
    }
}
