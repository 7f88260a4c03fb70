//! Why questions do not stand.
ghost use Rattle.std.specs.Prelude.{◌≡◌};
ghost use Rattle.shared_scan.specs.declared.standing_error.StandingError.TheVariants.{OutOfMemory};

use std::alloc::{AllocError, AllocFailed};
use thiserror::Error;

/// Why no totals were made of questions.
#[derive(Clone, Copy, Debug, PartialEq, Eq, Error)]
pub enum StandingError {
    /// Memory ran out.
    #[error("out of memory")]
    OutOfMemory,
    /// The question at this place, from 0, is the first that may have more than 65,536 groups: its rows are no small
    /// work.
    #[error("TooManyGroups {0}")]
    TooManyGroups(usize),
}

impl From<AllocError> for StandingError {
    ghost from_gives = { λ _ e. e ≡ OutOfMemory };

    fn from(_: AllocError) -> StandingError {
        StandingError::OutOfMemory
    }
}

impl<T: Drop> From<AllocFailed<T>> for StandingError {
    ghost from_gives = { λ _ e. e ≡ OutOfMemory };

    fn from(_: AllocFailed<T>) -> StandingError {
        StandingError::OutOfMemory
    }
}
