//! Why a journal is not gone on with behind a commit: it has fewer.

use thiserror::Error;

/// A journal has fewer commits. Its text is its number, its name and its value.
#[derive(Clone, Copy, Debug, PartialEq, Eq, Error)]
#[error("69 NoSuchCommit {number}")]
pub struct NoSuchCommit {
    /// So many come before those that are asked for.
    pub number: u64,
}
