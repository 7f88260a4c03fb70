//! Why a text is no case.

use std::alloc::{AllocError, AllocFailed};
use thiserror::Error;

/// Why a text is no case.
#[derive(Debug, Drop, Error)]
pub enum CaseFault {
    /// A line, by its number from 1.
    #[error("line {0}: {1}")]
    Line(u64, CaseLineFault),
    /// Nothing is run.
    #[error("no command")]
    NoCommand,
    /// A command has no line.
    #[error("a command without words")]
    NoWords,
}

/// What is wrong with a line.
#[derive(Clone, Copy, Debug, PartialEq, Eq, Error)]
pub enum CaseLineFault {
    /// A section before any prose.
    #[error("prose stands before the first section")]
    NoProse,
    /// Prose without its mark.
    #[error("a line of prose begins with '# '")]
    NotProse,
    /// Behind `== ` stands no section.
    #[error("no heading of a section")]
    NoHeading,
    /// A section that may not follow the one before it.
    #[error("this section does not stand here")]
    Misplaced,
    /// A section that has only its heading.
    #[error("no text stands here")]
    NoText,
    /// A command of more than one line.
    #[error("a command has one line")]
    SecondLine,
    /// A quote without its end.
    #[error("a quote is left open")]
    OpenQuote,
    /// A command of spaces.
    #[error("a command has words")]
    NoWords,
    /// No escape begins so.
    #[error("no escape")]
    NoEscape,
    /// An escape of a byte has two hexadecimal digits.
    #[error("no hexadecimal digit")]
    NoDigit,
    /// An escape that the line ends in.
    #[error("an escape is cut off")]
    CutOff,
    /// Memory ran out.
    #[error("out of memory")]
    OutOfMemory,
}

impl From<AllocError> for CaseLineFault {
    fn from(_error: AllocError) -> CaseLineFault {
        CaseLineFault::OutOfMemory
    }
}

impl<T: Drop> From<AllocFailed<T>> for CaseLineFault {
    fn from(_error: AllocFailed<T>) -> CaseLineFault {
        CaseLineFault::OutOfMemory
    }
}
