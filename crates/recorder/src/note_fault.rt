//! Why a note isn't taken.

use thiserror::Error;

/// Why a note isn't taken. Of several the first is said.
#[derive(Clone, Copy, Debug, Error)]
pub enum NoteFault {
    /// There is no device of this number.
    #[error("there is no device of this number")]
    NoDevice,
    /// There is no driver of this number.
    #[error("there is no driver of this number")]
    NoDriver,
    /// The priority is above 1279.
    #[error("a priority is at most 1279")]
    NoPriority,
    /// The time is more than a second before the latest one.
    #[error("the time is more than a second before the latest one")]
    TimeFalls,
    /// A request of this id is open already.
    #[error("a request of this id is open already")]
    AlreadyOpen,
    /// There is no room for one more request until a window is taken.
    #[error("there is no room for one more request")]
    Full,
    /// No request of this id is open.
    #[error("no request of this id is open")]
    NotOpen,
    /// The request was started already.
    #[error("the request was started already")]
    AlreadyStarted,
    /// The request wasn't started yet.
    #[error("the request wasn't started yet")]
    NotStarted,
    /// The request would be started before it arrived.
    #[error("the request would be started before it arrived")]
    StartBeforeArrival,
    /// The request would be done before it was started.
    #[error("the request would be done before it was started")]
    DoneBeforeStart,
}
