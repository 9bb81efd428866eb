//! Why a request wasn't added.

ghost use Rattle.std.specs.Prelude.{◌≡◌};
ghost use Rattle.recording_file.specs.Requests.{OutOfMemory};

use crate::cause::RequestFault;
use std::alloc::AllocError;
use thiserror::Error;

/// Why a request wasn't added.
#[derive(Clone, Copy, Debug, PartialEq, Eq, Error)]
pub enum RequestError {
    /// It can't be one of the recording.
    #[error("{0}")]
    Illegal(RequestFault),
    /// There is no memory left.
    #[error("out of memory")]
    OutOfMemory,
}

impl From<AllocError> for RequestError {
    ghost from_gives = { λ _ e. e ≡ OutOfMemory };

    fn from(_error: AllocError) -> RequestError {
        RequestError::OutOfMemory
    }
}
