//! Why a call on an adapter's queue is refused.

use thiserror::Error;

/// The callers' freeze count would pass 65,535.
#[derive(Clone, Copy, Debug, PartialEq, Eq, Error)]
#[error("the adapter would be frozen more than 65,535 times")]
pub struct FreezeOverflow;

/// The adapter isn't frozen.
#[derive(Clone, Copy, Debug, PartialEq, Eq, Error)]
#[error("the adapter isn't frozen")]
pub struct ReleaseTooMany;
