//! Why a file is not written over.

use std::fmt;

/// The file of this path is no text of figures, and has bytes: it is not written over.
#[derive(Debug, Drop)]
pub struct NotMetrics<P: Drop>(pub P);

impl<P: fmt::Display + Drop> fmt::Display for NotMetrics<P> {
    fn fmt<W: fmt::Write>(&self, f: &mut fmt::Formatter<W>) -> fmt::Result {
        write!(f, "64 NotMetrics {}", self.0)
    }
}
