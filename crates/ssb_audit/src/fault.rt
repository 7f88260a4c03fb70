//! What speaks against a trace.

ghost use Rattle.std.specs.Prelude.{◌≡◌};
ghost use Rattle.ssb_audit.specs.declared.fault.AuditFault.TheVariants.{OutOfMemory};

use std::alloc::AllocError;
use thiserror::Error;

/// What speaks against a trace. Commits are numbered from 1; an answer is told by its client and by which of that
/// client's answers it is, counted from 1. Its text is its number, its name and its values.
#[derive(Clone, Copy, Debug, PartialEq, Eq, Error)]
pub enum AuditFault {
    /// The refresh of this commit is refused after the commits before it.
    #[error("80 CommitRefused {0}")]
    CommitRefused(u64),
    /// The answer has not the rows of its question after its number of commits.
    #[error("81 WrongRows {0} {1}")]
    WrongRows(u32, u64),
    /// The answer is after fewer commits than the client's answer before it.
    #[error("82 WentBack {0} {1}")]
    WentBack(u32, u64),
    /// The answer is after more commits than there are.
    #[error("83 AtTooLarge {0} {1}")]
    AtTooLarge(u32, u64),
    /// Memory ran out.
    #[error("out of memory")]
    OutOfMemory,
}

impl From<AllocError> for AuditFault {
    ghost from_gives = { λ _ e. e ≡ OutOfMemory };

    fn from(_e: AllocError) -> AuditFault {
        AuditFault::OutOfMemory
    }
}
