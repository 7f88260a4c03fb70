//! Whether a journal is gone on with, or begins.

/// Whether a journal is gone on with, or begins.
#[derive(Clone, Copy, Debug, PartialEq, Eq)]
pub enum JournalStart {
    /// Its file is there: what it keeps is gone on with.
    GoesOn,
    /// Its file is made where there is none, and keeps no commits yet.
    Begins,
}
