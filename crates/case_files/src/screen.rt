//! The standard errors of a command, in memory: threads share them.

use crate::files::{BreakingFile, hold};
use std::fmt::Display;
use std::io;
use std::io::{Print, Write};
use std::sync::Mutex;

/// A writer that threads share.
#[derive(Drop)]
pub struct ErrorScreen(Mutex<BreakingFile>);

impl ErrorScreen {
    /// Of this writer.
    pub fn new(writer: BreakingFile) -> ErrorScreen {
        ErrorScreen(Mutex::new(writer))
    }
}

impl Print for ErrorScreen {
    fn print<D: Display + Drop>(&self, value: D) -> io::Result<()> {
        hold(&self.0)?.write_fmt(value)
    }

    fn println<D: Display + Drop>(&self, value: D) -> io::Result<()> {
        hold(&self.0)?.writeln(value)
    }

    fn write_all(&self, bytes: &[u8]) -> io::Result<()> {
        hold(&self.0)?.write_all(bytes)
    }

    fn write_some(&self, bytes: &[u8]) -> io::Result<usize> {
        hold(&self.0)?.write(bytes)
    }
}
