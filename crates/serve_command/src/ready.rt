//! The line that tells that a server is ready.

use ssb_base::Base;
use std::io;
use std::io::{Print, Write};

/// How many loaded lines a server is over, and how many clients it serves.
#[derive(Clone, Copy, Debug, PartialEq, Eq)]
pub struct ReadyLine {
    pub lines: usize,
    pub clients: usize,
}

impl ReadyLine {
    /// That of a server over this base, where it is to be told: it serves so many clients then.
    pub(crate) fn of(base: &Base, clients: Option<usize>) -> Option<ReadyLine> {
        Some(ReadyLine {
            lines: base.lines().len(),
            clients: clients?,
        })
    }
}

/// Tells that a server is ready, where that is to be told, as far as the screen takes it.
pub(crate) fn tell_ready<E: Print>(ready: Option<ReadyLine>, screen: &E) {
    if let Some(ReadyLine { lines, clients }) = ready {
        let mut screen = io::writer(screen);
        let _ = writeln!(screen, "ssb_live: serving {lines} lines, {clients} clients");
    }
}
