//! The most of each thing that a net may have. A history's has less: what a history may have.

/// The most rounds of a net.
pub const MAX_NET_ROUNDS: u32 = 65_535;
/// The most stays of a net.
pub const MAX_NET_STAYS: u32 = 1_048_576;
/// The most commands that a row of a net takes in a round.
pub const MAX_CAP: u32 = 65_535;
