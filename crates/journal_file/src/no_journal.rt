//! Why a journal is not gone on with: its file is not there.

use std::fmt;

/// There is no file of this path, and none is made. Its text is its number, its name and the path.
#[derive(Debug, Drop)]
pub struct NoJournal<P: Drop> {
    pub path: P,
}

impl<P: fmt::Display + Drop> fmt::Display for NoJournal<P> {
    fn fmt<W: fmt::Write>(&self, f: &mut fmt::Formatter<W>) -> fmt::Result {
        write!(f, "65 NoJournal {}", self.path)
    }
}
