//! The most of each thing that a recording may have.

/// The most rounds of a recording.
pub const MAX_RECORDED_ROUNDS: u32 = 65_535;
/// The most requests of a recording.
pub const MAX_REQUESTS: usize = 1_048_576;
/// The most bytes of a text that begins with `camrecord1` or `camrecord2`.
pub const MAX_RECORDING_BYTES: usize = 268_435_456;
