//! What speaks against the paths of a command.

use std::fmt;

/// What speaks against the paths of a command: a file of the user would be lost, or shared with another process.
#[derive(Debug, Drop)]
pub enum PathFault<P: Drop> {
    /// This path is the file of another path of the command, and one of them is written, or both are ends of clients.
    SameFile(P),
    /// This path, to which a client would be answered, is a plain file with bytes in it; or it is to keep a trace, and
    /// has something else.
    HasBytes(P),
    /// Another process has this path: the file that is to keep a trace, or the pipe that a client is read from.
    InUse(P),
}

impl<P: fmt::Display + Drop> fmt::Display for PathFault<P> {
    fn fmt<W: fmt::Write>(&self, f: &mut fmt::Formatter<W>) -> fmt::Result {
        match self {
            PathFault::SameFile(path) => write!(f, "96 SameFile {path}"),
            PathFault::HasBytes(path) => write!(f, "97 HasBytes {path}"),
            PathFault::InUse(path) => write!(f, "94 InUse {path}"),
        }
    }
}
