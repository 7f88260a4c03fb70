//! What is wrong with what the pieces of a statement say.
use std::alloc::{AllocError, AllocFailed};

/// What is wrong, by the number of the piece, from 0.
#[derive(Clone, Copy)]
pub(crate) enum PieceFault {
    /// No head has the name.
    UnknownName(usize),
    /// The table is not read or not joined.
    NotJoined(usize),
    /// The column is no group column.
    NotAGroup(usize),
    /// The value is none of its operand's, or a text has no other end.
    BadValue(usize),
    /// A choice of two operands, or numbers of a line with others between them.
    NotSupported(usize),
    /// More groups, printed columns or values than there may be, or a table or a join twice.
    TooMany(usize),
    /// A head twice.
    SameHead(usize),
    /// Memory ran out.
    OutOfMemory,
}

impl From<AllocError> for PieceFault {
    fn from(_: AllocError) -> PieceFault {
        PieceFault::OutOfMemory
    }
}

impl<T: Drop> From<AllocFailed<T>> for PieceFault {
    fn from(_: AllocFailed<T>) -> PieceFault {
        PieceFault::OutOfMemory
    }
}
