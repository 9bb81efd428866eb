//! The causes that refuse an event, in the order of testing.

use std::fmt;
use thiserror::Error;

/// Why an event is refused: the first cause that holds, in the order of this list.
#[derive(Clone, Copy, Debug, PartialEq, Eq, Error)]
pub enum Refusal {
    /// There are as many events as there may be: that many.
    HistoryFull(u32),
    /// There is no device of that number.
    NoDevice,
    /// There is no adapter of that number.
    NoAdapter,
    /// There is no lane of that number.
    NoLane,
    /// Too few CCBs were submitted for that number.
    NoCcb,
    /// The priority is above 1,279.
    BadPriority,
    /// The retries are more than 7.
    BadRetries,
    /// A freeze or release of none, or of more than 65,535.
    BadCount,
    /// The openings are 0 or more than 255.
    BadOpenings,
    /// The CAM status of the result is 0, which is none.
    BadStatus,
    /// As many CCBs are alive as there may be, which a history doesn't ask.
    CcbFull,
    /// As many stays have begun as there may be.
    StaysFull,
    /// No stay of the CCB is in its queue now.
    NotQueued,
    /// The lane is on another adapter than the CCB's device.
    WrongLane,
    /// A freeze of the device stands.
    DeviceFrozen,
    /// A freeze of the adapter stands.
    AdapterFrozen,
    /// The device or its adapter has no opening left in this round.
    NoOpening,
    /// It is another stay's turn on the adapter.
    NotHead,
    /// The CCB isn't in flight.
    NotInFlight,
    /// The CCB isn't recovering.
    NotRecovering,
    /// The class of the CCB's last result doesn't ask for this decision.
    WrongDecision,
    /// The freezes by callers would be more than 65,535.
    FreezeOverflow,
    /// It takes away more than callers have frozen.
    ReleaseTooMany,
    /// A command is in flight, so the round can't end.
    InFlight,
    /// The round is the last that there may be.
    RoundsFull,
}

impl fmt::Display for Refusal {
    fn fmt<W: fmt::Write>(&self, f: &mut fmt::Formatter<W>) -> fmt::Result {
        f.write_str(match self {
            Refusal::HistoryFull(_) => "HistoryFull",
            Refusal::NoDevice => "NoDevice",
            Refusal::NoAdapter => "NoAdapter",
            Refusal::NoLane => "NoLane",
            Refusal::NoCcb => "NoCcb",
            Refusal::BadPriority => "BadPriority",
            Refusal::BadRetries => "BadRetries",
            Refusal::BadCount => "BadCount",
            Refusal::BadOpenings => "BadOpenings",
            Refusal::BadStatus => "BadStatus",
            Refusal::CcbFull => "CcbFull",
            Refusal::StaysFull => "StaysFull",
            Refusal::NotQueued => "NotQueued",
            Refusal::WrongLane => "WrongLane",
            Refusal::DeviceFrozen => "DeviceFrozen",
            Refusal::AdapterFrozen => "AdapterFrozen",
            Refusal::NoOpening => "NoOpening",
            Refusal::NotHead => "NotHead",
            Refusal::NotInFlight => "NotInFlight",
            Refusal::NotRecovering => "NotRecovering",
            Refusal::WrongDecision => "WrongDecision",
            Refusal::FreezeOverflow => "FreezeOverflow",
            Refusal::ReleaseTooMany => "ReleaseTooMany",
            Refusal::InFlight => "InFlight",
            Refusal::RoundsFull => "RoundsFull",
        })
    }
}
