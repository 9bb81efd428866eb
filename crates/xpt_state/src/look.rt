//! What there is to see of a transport: its next case, and counts.

use sense_class::Class;

/// A CCB that waits for a decision on its error.
#[derive(Clone, Copy, Debug, PartialEq, Eq)]
pub struct Case {
    /// The number of the CCB.
    pub ccb: u32,
    /// The class of its last result.
    pub class: Class,
}

/// What there is to see of a transport, all in counts.
#[derive(Clone, Copy, Debug, PartialEq, Eq)]
pub struct Look {
    /// The events so far.
    pub length: u32,
    /// The round, from 1.
    pub round: u32,
    /// The CCBs in flight.
    pub in_flight: u32,
    /// The lanes whose adapter has something to send.
    pub heads: usize,
    /// The CCBs that wait for a decision on their error.
    pub cases: u32,
    /// The stays without a send.
    pub waiting: u32,
}
