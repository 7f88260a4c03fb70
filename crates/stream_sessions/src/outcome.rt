//! How a session ends.

use thiserror::Error;

/// Why a session that was served to its end has ended.
#[derive(Clone, Copy, Debug, PartialEq, Eq)]
pub enum Ending {
    /// The input ended, and all of it was answered.
    InputEnded,
    /// A request of more than 1 MiB began, which was told by its fault line.
    RequestTooLong,
}

/// A request has a refresh, and its session takes none. The text of the fault that is told is its number and its name.
#[derive(Clone, Copy, Debug, PartialEq, Eq, Error)]
#[error("68 ReadOnly")]
pub struct ReadOnly;

/// A session that was served to its end: all replies were handed on.
#[derive(Clone, Copy, Debug, PartialEq, Eq)]
pub struct Served {
    /// How many requests were answered; at the end of the input, the rest behind the last one too.
    pub answered: u64,
    /// Why it has ended.
    pub ending: Ending,
}

/// What broke a session.
#[derive(Clone, Copy, Debug, PartialEq, Eq, Error)]
pub enum SessionFault {
    /// The input could not be read. All replies were handed on.
    #[error("read failed")]
    Read,
    /// The output could not be written, or not handed on. A part of the replies was written, from their beginning on.
    #[error("write failed")]
    Write,
    /// Memory ran out, for the next request or its reply. All replies before it were handed on.
    #[error("out of memory")]
    OutOfMemory,
}

/// A session that broke.
#[derive(Clone, Copy, Debug, PartialEq, Eq, Error)]
#[error("{fault}")]
pub struct SessionError {
    /// How many requests were answered before.
    pub answered: u64,
    /// What broke it.
    pub fault: SessionFault,
}
