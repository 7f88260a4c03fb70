//! Why a request could not be read.

ghost use Rattle.std.specs.Prelude.{◌≡◌};
ghost use Rattle.ssb_script.specs.declared.request_error.RequestError.TheVariants.{OutOfMemory};

use std::alloc::AllocError;
use thiserror::Error;

/// Why the next request was not read whole.
#[derive(Clone, Copy, Debug, PartialEq, Eq, Error)]
pub enum RequestError {
    /// The request is longer than the limit.
    #[error("76 RequestTooLong")]
    TooLong,
    /// The reader underneath failed.
    #[error("read failed")]
    Read,
    /// Memory ran out.
    #[error("out of memory")]
    OutOfMemory,
}

impl From<AllocError> for RequestError {
    ghost from_gives = { λ _ why. why ≡ OutOfMemory };

    fn from(_: AllocError) -> RequestError {
        RequestError::OutOfMemory
    }
}
