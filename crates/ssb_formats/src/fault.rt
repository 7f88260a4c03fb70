//! What keeps answers from being written.
use thiserror::Error;

/// Why answers are not written, or only the first part of their text is.
#[derive(Clone, Copy, Debug, PartialEq, Eq, Error)]
pub enum FormatFault {
    /// There was no memory for the text of an answer.
    #[error("out of memory")]
    OutOfMemory,
    /// A write failed, or took nothing.
    #[error("write failed")]
    WriteFailed,
}
