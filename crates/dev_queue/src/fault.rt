//! Why a call on a device's queue is refused.

use thiserror::Error;

/// The device holds as many CCBs as it may.
#[derive(Clone, Copy, Debug, PartialEq, Eq, Error)]
#[error("the device's queue is full")]
pub struct QueueFull;

/// The callers' freeze count would pass 65,535.
#[derive(Clone, Copy, Debug, PartialEq, Eq, Error)]
#[error("the device would be frozen more than 65,535 times")]
pub struct FreezeOverflow;

/// More than the callers' freeze count would be released.
#[derive(Clone, Copy, Debug, PartialEq, Eq, Error)]
#[error("the device isn't frozen so many times by callers")]
pub struct ReleaseTooMany;
