//! The two ends of a client: what it is read from, and what it is answered to.

use std::fs::{Metadata, OpenFile, OpenOptions};
use std::io::{self, Write};
use std::os::unix::fs::FileTypeExt;
use std::rt::Files;
use std::{fmt, fs};

/// Where the ends of a client are: paths of named pipes or of files.
#[derive(Debug, Drop)]
pub struct EndPaths {
    /// What is read.
    pub input: String,
    /// What is written.
    pub output: String,
}

/// The opened ends of a client.
#[derive(Drop)]
pub struct Ends<O: Drop> {
    /// What is read.
    pub input: O,
    /// What is written.
    pub output: O,
}

/// Why the ends of a client are not open.
#[derive(Debug, Drop)]
pub enum EndFault<'a> {
    /// What it is read from, by its path, could not be opened.
    CannotRead(&'a str),
    /// What it is answered to, by its path, could be neither opened nor made.
    CannotWrite(&'a str),
}

impl<'a> fmt::Display for EndFault<'a> {
    fn fmt<W: fmt::Write>(&self, f: &mut fmt::Formatter<W>) -> fmt::Result {
        match self {
            EndFault::CannotRead(path) => write!(f, "cannot read {path}"),
            EndFault::CannotWrite(path) => write!(f, "cannot write {path}"),
        }
    }
}

/// Whether the system says that this is a named pipe.
pub(crate) fn is_named_pipe(found: io::Result<Metadata>) -> bool {
    match found {
        Ok(metadata) => metadata.file_type().is_fifo(),
        Err(_) => false,
    }
}

/// The end of a named pipe that is written, though nobody may read it yet. Whoever opens one end waits for the other,
/// but who opens both ways does not; and beside that nor does who opens one. None where it is no named pipe, or may not
/// be read.
pub(crate) fn open_unread<F: Files>(files: &F, path: &str) -> Option<F::File> {
    if !is_named_pipe(fs::metadata(files, path)) {
        return None;
    }
    let both_ways = OpenOptions::new()
        .read(true)
        .write(true)
        .open(files, path)
        .ok()?;
    let unread = OpenOptions::new().write(true).open(files, path).ok();
    both_ways.drop();
    unread
}

// What ends a request that a client has begun, and asks for a reply.
const LET_GO: &[u8] = b"\nabort\n";

/// Lets who waits at a named pipe go on, in its opening or, with a text that asks for a reply, in a read. A pipe that is
/// opened both ways is waited for by nobody. What is no named pipe is not opened.
pub(crate) fn let_go<F: Files>(files: &F, path: &str, is_read: bool) {
    if !is_named_pipe(fs::metadata(files, path)) {
        return;
    }
    let opened = OpenOptions::new().read(true).write(true).open(files, path);
    if let Ok(mut pipe) = opened {
        if is_read {
            let _ = pipe.write_all(LET_GO);
        }
    }
}

/// Reports each client that is answered to no named pipe, by its number from 1, if the writer takes it. It is mostly a
/// slip, and the client then waits for its answers at a pipe that nobody writes.
pub fn report_no_pipes<F: Files, E: Write>(files: &F, clients: &[EndPaths], err: &mut E) {
    let mut number = 0u64;
    for paths in clients {
        number = number.saturating_add(1);
        if !is_named_pipe(fs::metadata(files, paths.output.as_str())) {
            let _ = writeln!(err, "ssb_live: client {number}: out is no pipe");
        }
    }
}

impl<O: OpenFile + Drop> Ends<O> {
    /// Whether both ends are named pipes, so that they can be opened again for another session.
    pub fn are_named_pipes(&self) -> bool {
        is_named_pipe(self.input.metadata()) && is_named_pipe(self.output.metadata())
    }
}
