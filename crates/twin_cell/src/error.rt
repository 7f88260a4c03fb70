//! Why there is no cell.

use thiserror::Error;

/// Why `twin` made no cell.
#[derive(Clone, Copy, Debug, PartialEq, Eq, Error)]
pub enum TwinError {
    /// No place is free for a reader.
    #[error("50 NoReader")]
    NoReader,
    /// Memory ran out.
    #[error("out of memory")]
    OutOfMemory,
}
