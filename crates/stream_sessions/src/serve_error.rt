//! Why a script is not served to its end.
ghost use Rattle.std.specs.Prelude.{◌≡◌};
ghost use Rattle.stream_sessions.specs.OneRequest.{error_after};

use thiserror::Error;

/// Why a script was not served to its end. So many requests were served and reported before.
#[derive(Clone, Copy, Debug, PartialEq, Eq, Error)]
pub enum ServeError {
    /// The next request was served too, but its report could not be written whole.
    #[error("write failed")]
    Write(u64),
    /// There was no memory to keep the next request's answer, and it was not asked.
    #[error("out of memory")]
    OutOfMemory(u64),
}

/// Why serving stopped at a request.
#[derive(Clone, Copy, Debug, PartialEq, Eq)]
pub enum ServeStop {
    /// The request was served, but its report could not be written whole.
    Write,
    /// There was no memory to keep the request's answer, and it was not asked.
    OutOfMemory,
}

impl ServeStop {
    /// The error where so many requests were served and reported before.
    pub(crate) fn after(self, done: u64) -> ServeError
        ensures { result ≡ error_after self done }
    {
        match self {
            ServeStop::Write => ServeError::Write(done),
            ServeStop::OutOfMemory => ServeError::OutOfMemory(done),
        }
    }
}
